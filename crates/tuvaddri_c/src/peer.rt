//! The peer of RFC 4137 section 4.

ghost use Rattle.std.specs.Prelude.{◌≡◌, true, false, None, IfSome};
ghost use Rattle.eap_method.specs.BothPeers.{both_of};
ghost use Rattle.eap_method.specs.Steps.{is_end};
ghost use Rattle.peer_machine.specs.PeerTable.{peer_idle, peer_alt_accept, peer_alt_reject};
ghost use Rattle.peer_machine.specs.PeerTable.{initial_peer};
ghost use Rattle.peer_machine.specs.PeerTable as peer;
ghost use Rattle.end_objects.specs.Objects.{peer_object_shown};
ghost use Rattle.end_objects.specs.Refusals.{peer_refusal};
ghost use Rattle.end_objects.specs.Settings.{settings_of, kinds_of, peer_setup_of};
ghost use Rattle.tuvaddri_c.specs.Answers.{ok, no_memory, refusal_number};
ghost use Rattle.tuvaddri_c.specs.Ends.{IfPeer, AsPeer, is_running_peer, can_restart};
ghost use Rattle.tuvaddri_c.specs.declared.session.End.TheVariants as ends;
ghost use Rattle.tuvaddri_c.specs.Sent.{sent_of, none_sent};
ghost use Rattle.tuvaddri_c.specs.Settled.{is_settled};
ghost use Rattle.tuvaddri_c.specs.Turns.{PeerDoes, IsMisplaced};

use crate::answers::{NO_MEMORY, STARTED, number_of_refusal};
use crate::handle::TuvEnd;
use crate::session::End;
use crate::turn::TuvTurn;
use end_objects::{PeerObject, Settings, kinds_of, peer_objects, peer_refusal, peer_setup};
use octet_lists::Nonce;
use peer_machine::PeerMachine;
use std::alloc::Global;

/// Makes the end this peer. (By itself, since the compiler then builds it where it stays.)
fn store_machine(end: &mut End, machine: PeerMachine<PeerObject>)
    ensures { end.new ≡ ends.Peer machine }
{
    *end = End::Peer(machine);
}

/// Makes the end a peer with these settings, and answers 0. Else it answers the number of the refusal, or 8 for want
/// of memory, and the end stays as it was.
#[unsafe(no_mangle)]
#[tactic(auto, using(crate::proofs::TwoRecords::peer_started_with, crate::proofs::TwoRecords::peer_created_with, crate::proofs::Stays::peer_created, crate::proofs::LastResponse::created), unfolding(end_objects::specs::Settings::peer_setup_of))]
pub extern "C" fn tuv_peer_begin(
    alloc: Global,
    end: &mut TuvEnd,
    settings: &Settings,
    nonce: &Nonce,
) -> u8
    ensures refused { IfSome (peer_refusal (settings_of settings.now))
        (λ reason. result ≡ refusal_number reason) }
    ensures started { peer_refusal (settings_of settings.now) ≡ None → (result ≡ no_memory → ⊥)
        → result ≡ ok }
    ensures initial { result ≡ ok → AsPeer end.new.value.end (λ n.
        peer.now_of peer_object_shown n
        ≡ initial_peer (peer_setup_of (settings_of settings.now) nonce.now)
        (both_of (kinds_of (settings_of settings.now)))) }
    ensures objects { result ≡ ok → can_restart end.new.value.end ≡ true }
    ensures settled { result ≡ ok → is_settled end.new.value.end ≡ true }
    ensures sent { result ≡ ok → sent_of end.new.value ≡ none_sent }
    ensures unchanged { (result ≡ ok → ⊥) → end.new.value ≡ end.old.value }
{
    if let Some(refusal) = peer_refusal(settings) {
        return number_of_refusal(refusal);
    }
    let kinds = kinds_of(settings);
    let Ok(methods) = peer_objects(alloc, kinds.as_slice()) else {
        return NO_MEMORY;
    };
    let setup = peer_setup(settings, nonce);
    let session = end.session();
    store_machine(&mut session.end, PeerMachine::new(setup, methods));
    session.fresh = false;
    STARTED
}

/// The lower layer is idle: to a peer that has not ended.
#[unsafe(no_mangle)]
#[tactic(auto, using(crate::proofs::TwoRecords::peer_preserved))]
pub extern "C" fn tuv_peer_idle(end: &mut TuvEnd) -> TuvTurn
    ensures peer { IfPeer end.old.value.end
        (λ m. is_end m.vars.state ≡ false → AsPeer end.new.value.end (λ n.
        PeerDoes (peer_idle (peer.now_of peer_object_shown m))
        (sent_of end.old.value) result (sent_of end.new.value) n)) }
    ensures misplaced { is_running_peer end.old.value.end ≡ false
        → IsMisplaced end.old.value result end.new.value }
    ensures objects { can_restart end.old.value.end ≡ true → can_restart end.new.value.end ≡ true }
    ensures settled { is_settled end.old.value.end ≡ true → is_settled end.new.value.end ≡ true }
{
    let session = end.session();
    match &mut session.end {
        End::Peer(machine) if !machine.ended() => {
            let step = machine.idle_step();
            TuvTurn::of_peer(&step, machine.state(), &mut session.fresh)
        }
        _ => TuvTurn::none(&mut session.fresh),
    }
}

/// The lower layer reports success: to a peer that has not ended.
#[unsafe(no_mangle)]
#[tactic(auto, using(crate::proofs::TwoRecords::peer_preserved))]
pub extern "C" fn tuv_peer_alt_accept(end: &mut TuvEnd) -> TuvTurn
    ensures peer { IfPeer end.old.value.end
        (λ m. is_end m.vars.state ≡ false → AsPeer end.new.value.end (λ n.
        PeerDoes (peer_alt_accept (peer.now_of peer_object_shown m))
        (sent_of end.old.value) result (sent_of end.new.value) n)) }
    ensures misplaced { is_running_peer end.old.value.end ≡ false
        → IsMisplaced end.old.value result end.new.value }
    ensures objects { can_restart end.old.value.end ≡ true → can_restart end.new.value.end ≡ true }
    ensures settled { is_settled end.old.value.end ≡ true → is_settled end.new.value.end ≡ true }
{
    let session = end.session();
    match &mut session.end {
        End::Peer(machine) if !machine.ended() => {
            let step = machine.alt_accept_step();
            TuvTurn::of_peer(&step, machine.state(), &mut session.fresh)
        }
        _ => TuvTurn::none(&mut session.fresh),
    }
}

/// The lower layer reports failure: to a peer that has not ended.
#[unsafe(no_mangle)]
#[tactic(auto, using(crate::proofs::TwoRecords::peer_preserved))]
pub extern "C" fn tuv_peer_alt_reject(end: &mut TuvEnd) -> TuvTurn
    ensures peer { IfPeer end.old.value.end
        (λ m. is_end m.vars.state ≡ false → AsPeer end.new.value.end (λ n.
        PeerDoes (peer_alt_reject (peer.now_of peer_object_shown m))
        (sent_of end.old.value) result (sent_of end.new.value) n)) }
    ensures misplaced { is_running_peer end.old.value.end ≡ false
        → IsMisplaced end.old.value result end.new.value }
    ensures objects { can_restart end.old.value.end ≡ true → can_restart end.new.value.end ≡ true }
    ensures settled { is_settled end.old.value.end ≡ true → is_settled end.new.value.end ≡ true }
{
    let session = end.session();
    match &mut session.end {
        End::Peer(machine) if !machine.ended() => {
            let step = machine.alt_reject_step();
            TuvTurn::of_peer(&step, machine.state(), &mut session.fresh)
        }
        _ => TuvTurn::none(&mut session.fresh),
    }
}
