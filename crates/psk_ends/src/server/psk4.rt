//! Checking PSK-4, which ends the login (RFC 4764 section 5.4).

ghost use Rattle.std.specs.Prelude.{◌≡◌, ℕ, ◌≤◌, List, ◌∷◌, [], length, not, IfOk};
ghost use Rattle.eap_packet.specs.declared.cause.Cause.TheVariants.{BadTag};
ghost use Rattle.psk_messages.specs.Message.{message_of};
ghost use Rattle.psk_messages.specs.declared.view.PskMessage.TheVariants.{P4};
ghost use Rattle.eap_method.specs.Turns.{fault_if};
ghost use Rattle.eap_method.specs.PskTags.{hidden_octet, is_sealed, result_fault, result_of};
ghost use Rattle.eap_method.specs.PskTags.{tek_record};
ghost use Rattle.eap_method.specs.PskServer.{keys_of, psk4_fault, both_succeed, checked_receives};
ghost use Rattle.psk_ends.specs.Checks.{value_unless};
ghost use Rattle.psk_ends.specs.ServerStage.{in_known, outcome_with};
ghost use Rattle.psk_ends.specs.declared.server.stage.KnownPhase.TheVariants.{Checked};

use crate::channel::{DONE_SUCCESS, check_result, open};
use crate::records::add_channel;
use crate::server::login::Login;
use crate::server::stage::KnownPhase;
use eap_method::{Records, ServerAnswer, TagList, Tags};
use eap_packet::Cause;
use psk_messages::Psk4;

/// The octet in PCHANNEL, if the tag is right and it has no fault. `BadTag`: the tag is wrong.
fn check_tag(login: &Login, header: &[u8], psk4: &Psk4) -> Result<u8, Cause>
    requires { psk4.now.channel.nonce ≡ 1 }
    ensures { result ≡ value_unless
        (fault_if (not (is_sealed (keys_of login.now).tek 1 header.now
        psk4.now.channel.sealed psk4.now.channel.tag)) BadTag
        (result_fault (hidden_octet (keys_of login.now).tek 1 psk4.now.channel.sealed)))
        (hidden_octet (keys_of login.now).tek 1 psk4.now.channel.sealed) }
{
    match open(login.tek(), header, &psk4.channel) {
        None => Err(Cause::BadTag),
        Some(octet) => check_result(octet),
    }
}

/// The octet in PCHANNEL, if PSK-4 has no fault; else the first one, in the order of the causes.
fn check_psk4(login: &Login, header: &[u8], psk4: &Psk4) -> Result<u8, Cause>
    ensures octet { result ≡ value_unless
        (psk4_fault login.now header.now psk4.now.rand_s
        psk4.now.channel.nonce psk4.now.channel.tag psk4.now.channel.sealed)
        (hidden_octet (keys_of login.now).tek 1 psk4.now.channel.sealed) }
    ensures nonce { IfOk result (λ octet. psk4.now.channel.nonce ≡ 1) }
{
    if psk4.rand_s.as_slice() != login.rand_s().as_slice() {
        Err(Cause::FieldMismatch)
    } else if psk4.channel.nonce != 1 {
        Err(Cause::BadNonce)
    } else {
        check_tag(login, header, psk4)
    }
}

/// Whether the login ends with success: both sides have sent it.
fn end(login: &Login, octet: u8) -> bool
    ensures { result ≡ both_succeed login.now (result_of octet) }
{
    login.r() == DONE_SUCCESS && octet / 64 == DONE_SUCCESS
}

/// Adds the record of PSK-4's tag.
fn add_psk4<R: Records>(login: &Login, header: &[u8], psk4: &Psk4, accepted: &mut TagList<R>)
    requires none { accepted.old ≡ [] }
    requires header { length header.now ≤ 22 }
    requires nonce { psk4.now.channel.nonce ≡ 1 }
    ensures { accepted.new
        ≡ tek_record login.now.psk 1 header.now psk4.now.channel.sealed psk4.now.channel.tag ∷ [] }
{
    add_channel(accepted, login.psk(), header, &psk4.channel);
}

/// PSK-4, with this header: it ends the login, if it has no fault.
#[tactic(auto, using(crate::proofs::ServerChecks::is_end))]
pub fn handle_psk4<R: Records>(
    login: &Login,
    phase: &mut KnownPhase,
    header: &[u8],
    psk4: &Psk4,
    tags: &mut Tags<R>,
) -> ServerAnswer
    requires header { length header.now ≤ 22 }
    requires awaits { phase.old ≡ Checked }
    ensures { (packet : List ℕ) → outcome_with result packet tags.new (in_known phase.new login.now)
        ≡ checked_receives login.now header.now (message_of (P4 psk4.now)) }
{
    match check_psk4(login, header, psk4) {
        Err(cause) => ServerAnswer::Discard(cause),
        Ok(octet) => {
            tags.clear();
            add_psk4(login, header, psk4, &mut tags.accepted);
            let success = end(login, octet);
            *phase = KnownPhase::Over { success };
            ServerAnswer::Done { success }
        }
    }
}
