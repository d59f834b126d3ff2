//! Checking PSK-3, and answering it by PSK-4 (RFC 4764 sections 5.3 and 5.4).

ghost use Rattle.std.specs.Prelude.{◌≡◌, ◌≤◌, ◌<◌, [], length, not, true, None, IfOk};
ghost use Rattle.eap_packet.specs.declared.cause.Cause.TheVariants.{BadTag};
ghost use Rattle.psk_messages.specs.Message.{psk4, message_of};
ghost use Rattle.psk_messages.specs.declared.view.PskMessage.TheVariants.{P3};
ghost use Rattle.eap_method.specs.Capacity.{HasCapacity, replies};
ghost use Rattle.eap_method.specs.Turns.{fault_if};
ghost use Rattle.eap_method.specs.PskTags.{psk_response, blank_tag, hidden_octet, result_fault};
ghost use Rattle.eap_method.specs.PskTags.{result_of};
ghost use Rattle.eap_method.specs.PskPeer.{keys_of, psk4_of, psk4_record, psk3_records, psk3_fault};
ghost use Rattle.eap_method.specs.PskPeer.{are_right, confirms, wait_receives};
ghost use Rattle.psk_ends.specs.Checks.{value_unless};
ghost use Rattle.psk_ends.specs.PeerStage.{in_phase, outcome_with};
ghost use Rattle.psk_ends.specs.declared.peer.stage.Phase.TheVariants.{Wait};

use crate::channel::{DONE_FAILURE, DONE_SUCCESS, check_result, open, seal_in};
use crate::peer::login::Login;
use crate::peer::stage::Phase;
use crate::records::add_channel;
use eap_method::{Decision, MethodState, PeerAnswer, Records, TagList, Tags};
use eap_packet::{Cause, Code};
use octet_lists::{Packet, equal_in_full};
use psk_messages::{Channel, Psk3, Psk4, PskMessage, write_psk_into};

/// Writes PSK-4 with PCHANNEL still blank.
fn write_psk4(login: &Login, id: u8, packet: &mut Packet)
    ensures packet { packet.new ≡ psk_response id (psk4 login.now.rand_s 1 blank_tag 0) }
    ensures capacity { HasCapacity packet.new }
{
    let message = PskMessage::P4(Psk4 {
        rand_s: *login.rand_s(),
        channel: Channel {
            nonce: 1,
            tag: [0; 16],
            sealed: 0,
        },
    });
    write_psk_into(packet, &message, Code::Response, id);
}

/// PSK-4 with this R, and the record of its tag.
#[tactic(auto, using(crate::proofs::Filled::room4, crate::proofs::Filled::filled4), unfolding(eap_method::specs::PskPeer::psk4_header, eap_method::specs::PskPeer::psk4_sealed))]
fn psk4<R: Records>(login: &Login, id: u8, r: u8, packet: &mut Packet, made: &mut TagList<R>)
    requires two_bits { r < 4 }
    requires none { made.old ≡ [] }
    ensures packet { packet.new ≡ psk_response id (psk4_of login.now id r) }
    ensures records { made.new ≡ psk4_record login.now id r }
    ensures capacity { HasCapacity packet.new }
{
    write_psk4(login, id, packet);
    seal_in(packet, login.tek(), login.psk(), 1, r, made);
}

/// A PSK-3 without a fault is answered by PSK-4, with its R, and the login is over.
#[tactic(auto, unfolding(eap_method::specs::PskPeer::confirms))]
fn confirm<R: Records>(
    login: &Login,
    phase: &mut Phase,
    id: u8,
    octet: u8,
    packet: &mut Packet,
    tags: &mut Tags<R>,
) -> PeerAnswer
    requires { tags.old.made ≡ [] }
    ensures turn { outcome_with result packet.new tags.new (in_phase phase.new login.now)
        ≡ confirms login.now id (result_of octet) tags.old.accepted None }
    ensures capacity { HasCapacity packet.new }
{
    if octet / 64 == DONE_SUCCESS {
        psk4(login, id, DONE_SUCCESS, packet, &mut tags.made);
        *phase = Phase::Over { good: true };
        PeerAnswer::Reply {
            state: MethodState::Done,
            decision: Decision::UncondSucc,
        }
    } else {
        psk4(login, id, DONE_FAILURE, packet, &mut tags.made);
        *phase = Phase::Over { good: false };
        PeerAnswer::Reply {
            state: MethodState::MayCont,
            decision: Decision::Fail,
        }
    }
}

/// The octet in PCHANNEL, if both tags are right and it has no fault. `BadTag`: one of them is not.
fn check_tags(login: &Login, header: &[u8], psk3: &Psk3) -> Result<u8, Cause>
    requires { psk3.now.channel.nonce ≡ 0 }
    ensures { result ≡ value_unless
        (fault_if (not (are_right login.now header.now
        psk3.now.mac psk3.now.channel.tag psk3.now.channel.sealed)) BadTag
        (result_fault (hidden_octet (keys_of login.now).tek 0 psk3.now.channel.sealed)))
        (hidden_octet (keys_of login.now).tek 0 psk3.now.channel.sealed) }
{
    if !equal_in_full(&login.mac_s(), &psk3.mac) {
        return Err(Cause::BadTag);
    }
    match open(login.tek(), header, &psk3.channel) {
        None => Err(Cause::BadTag),
        Some(octet) => check_result(octet),
    }
}

/// The octet in PCHANNEL, if PSK-3 has no fault; else the first one, in the order of the causes.
fn check_psk3(login: &Login, header: &[u8], psk3: &Psk3) -> Result<u8, Cause>
    ensures octet { result ≡ value_unless
        (psk3_fault login.now header.now psk3.now.rand_s psk3.now.mac
        psk3.now.channel.nonce psk3.now.channel.tag psk3.now.channel.sealed)
        (hidden_octet (keys_of login.now).tek 0 psk3.now.channel.sealed) }
    ensures nonce { IfOk result (λ octet. psk3.now.channel.nonce ≡ 0) }
{
    if psk3.rand_s.as_slice() != login.rand_s().as_slice() {
        Err(Cause::FieldMismatch)
    } else if psk3.channel.nonce != 0 {
        Err(Cause::BadNonce)
    } else {
        check_tags(login, header, psk3)
    }
}

/// Adds the records of PSK-3's tags.
fn add_psk3<R: Records>(login: &Login, header: &[u8], psk3: &Psk3, accepted: &mut TagList<R>)
    requires none { accepted.old ≡ [] }
    requires header { length header.now ≤ 22 }
    requires nonce { psk3.now.channel.nonce ≡ 0 }
    ensures { accepted.new ≡ psk3_records login.now header.now
        psk3.now.mac psk3.now.channel.tag psk3.now.channel.sealed }
{
    login.add_mac_s(accepted, &psk3.mac);
    add_channel(accepted, login.psk(), header, &psk3.channel);
}

/// PSK-3, with this Identifier and this header: it is answered, if it has no fault.
#[tactic(auto, using(crate::proofs::PeerChecks::is_confirmed))]
pub fn handle_psk3<R: Records>(
    login: &Login,
    phase: &mut Phase,
    id: u8,
    header: &[u8],
    psk3: &Psk3,
    packet: &mut Packet,
    tags: &mut Tags<R>,
) -> PeerAnswer
    requires header { length header.now ≤ 22 }
    requires waits { phase.old ≡ Wait }
    ensures turn { outcome_with result packet.new tags.new (in_phase phase.new login.now)
        ≡ wait_receives login.now id header.now (message_of (P3 psk3.now)) }
    ensures capacity { replies result ≡ true → HasCapacity packet.new }
{
    match check_psk3(login, header, psk3) {
        Err(cause) => PeerAnswer::Discard(cause),
        Ok(octet) => {
            tags.clear();
            add_psk3(login, header, psk3, &mut tags.accepted);
            confirm(login, phase, id, octet, packet, tags)
        }
    }
}
