//! The pass-through of RFC 4137 section 7.

ghost use Rattle.std.specs.Prelude.{◌≡◌, true, false, None, IfSome};
ghost use Rattle.pass_through.specs.PassTable.{initial_pass, pass_start, pass_restart};
ghost use Rattle.pass_through.specs.PassTable.{pass_from_peer, pass_from_backend, pass_timeout};
ghost use Rattle.pass_through.specs.PassTable.{pass_aaa_timeout, pass_aaa_noreq, is_started};
ghost use Rattle.pass_through.specs.PassTable.{has_timer, is_aaa_idle};
ghost use Rattle.end_objects.specs.Refusals.{retry_refusal};
ghost use Rattle.tuvaddri_c.specs.Answers.{ok, no_memory, refusal_number};
ghost use Rattle.tuvaddri_c.specs.Ends.{IfPass, AsPass, is_pass, can_start_pass, has_timer_pass};
ghost use Rattle.tuvaddri_c.specs.Ends.{waits_for_backend};
ghost use Rattle.tuvaddri_c.specs.Sent.{sent_of, none_sent};
ghost use Rattle.tuvaddri_c.specs.Settled.{is_settled};
ghost use Rattle.tuvaddri_c.specs.Turns.{PassDoes, IsMisplaced};

use crate::answers::{NO_MEMORY, STARTED, number_of_refusal};
use crate::handle::TuvEnd;
use crate::sent::empty_packet;
use crate::session::End;
use crate::turn::TuvTurn;
use end_objects::retry_refusal;
use octet_lists::Packet;
use pass_through::PassThrough;
use std::alloc::Global;

/// Makes the end a pass-through that has not started, and answers 0. Its first Request has the Identifier
/// `first_id`; a Request is sent again at most `max_retrans` times. If that is over 10 it answers 7, for want of memory 8,
/// and the end stays as it was.
#[unsafe(no_mangle)]
pub extern "C" fn tuv_pass_begin(
    alloc: Global,
    end: &mut TuvEnd,
    first_id: u8,
    max_retrans: u8,
) -> u8
    ensures refused { IfSome (retry_refusal max_retrans)
        (λ reason. result ≡ refusal_number reason) }
    ensures started { retry_refusal max_retrans ≡ None → (result ≡ no_memory → ⊥)
        → result ≡ ok }
    ensures initial { result ≡ ok
        → AsPass end.new.value.end (λ n. n ≡ initial_pass first_id max_retrans) }
    ensures settled { result ≡ ok → is_settled end.new.value.end ≡ true }
    ensures sent { result ≡ ok → sent_of end.new.value ≡ none_sent }
    ensures unchanged { (result ≡ ok → ⊥) → end.new.value ≡ end.old.value }
{
    if let Some(refusal) = retry_refusal(max_retrans) {
        return number_of_refusal(refusal);
    }
    let Some(last) = empty_packet(alloc) else {
        return NO_MEMORY;
    };
    let session = end.session();
    session.end = End::Pass(PassThrough::new(first_id, max_retrans), last);
    session.fresh = false;
    STARTED
}

/// It starts, if it has not: its Request goes to the peer.
#[unsafe(no_mangle)]
#[tactic(auto, using(crate::proofs::Does::pass_does))]
pub extern "C" fn tuv_pass_start(end: &mut TuvEnd) -> TuvTurn
    ensures pass { IfPass end.old.value.end
        (λ m. is_started m.state ≡ false → AsPass end.new.value.end (λ n.
        PassDoes (pass_start m) (sent_of end.old.value) result (sent_of end.new.value) n)) }
    ensures misplaced { can_start_pass end.old.value.end ≡ false
        → IsMisplaced end.old.value result end.new.value }
    ensures settled { is_settled end.old.value.end ≡ true → is_settled end.new.value.end ≡ true }
{
    let session = end.session();
    match &mut session.end {
        End::Pass(machine, last) if !machine.started() => {
            let mut packet = Packet::new();
            let step = machine.start_step(&mut packet);
            TuvTurn::of(
                &step,
                packet.as_slice(),
                machine.state(),
                last,
                &mut session.fresh,
            )
        }
        _ => TuvTurn::none(&mut session.fresh),
    }
}

/// It restarts, in any state, also before its start: its Request, with the first Identifier, goes to the
/// peer.
#[unsafe(no_mangle)]
#[tactic(auto, using(crate::proofs::Does::pass_does))]
pub extern "C" fn tuv_pass_restart(end: &mut TuvEnd) -> TuvTurn
    ensures pass { IfPass end.old.value.end (λ m. AsPass end.new.value.end (λ n.
        PassDoes (pass_restart m) none_sent result (sent_of end.new.value) n)) }
    ensures misplaced { is_pass end.old.value.end ≡ false
        → IsMisplaced end.old.value result end.new.value }
    ensures settled { is_settled end.old.value.end ≡ true → is_settled end.new.value.end ≡ true }
{
    let session = end.session();
    match &mut session.end {
        End::Pass(machine, last) => {
            let mut packet = Packet::new();
            let step = machine.restart_step(&mut packet);
            last.clear();
            session.fresh = false;
            TuvTurn::of(
                &step,
                packet.as_slice(),
                machine.state(),
                last,
                &mut session.fresh,
            )
        }
        _ => TuvTurn::none(&mut session.fresh),
    }
}

/// Octets arrive from the peer: what is sent goes to the backend.
#[unsafe(no_mangle)]
#[tactic(auto, using(crate::proofs::Does::pass_does))]
pub extern "C" fn tuv_pass_from_peer(end: &mut TuvEnd, octets: &[u8]) -> TuvTurn
    ensures pass { IfPass end.old.value.end (λ m. AsPass end.new.value.end (λ n.
        PassDoes (pass_from_peer m octets.now)
        (sent_of end.old.value) result (sent_of end.new.value) n)) }
    ensures misplaced { is_pass end.old.value.end ≡ false
        → IsMisplaced end.old.value result end.new.value }
    ensures settled { is_settled end.old.value.end ≡ true → is_settled end.new.value.end ≡ true }
{
    let session = end.session();
    match &mut session.end {
        End::Pass(machine, last) => {
            let mut packet = Packet::new();
            let step = machine.from_peer_step(octets, &mut packet);
            TuvTurn::of(
                &step,
                packet.as_slice(),
                machine.state(),
                last,
                &mut session.fresh,
            )
        }
        _ => TuvTurn::none(&mut session.fresh),
    }
}

/// Octets arrive from the backend: what is sent goes to the peer.
#[unsafe(no_mangle)]
#[tactic(auto, using(crate::proofs::Does::pass_does))]
pub extern "C" fn tuv_pass_from_backend(end: &mut TuvEnd, octets: &[u8]) -> TuvTurn
    ensures pass { IfPass end.old.value.end (λ m. AsPass end.new.value.end (λ n.
        PassDoes (pass_from_backend m octets.now)
        (sent_of end.old.value) result (sent_of end.new.value) n)) }
    ensures misplaced { is_pass end.old.value.end ≡ false
        → IsMisplaced end.old.value result end.new.value }
    ensures settled { is_settled end.old.value.end ≡ true → is_settled end.new.value.end ≡ true }
{
    let session = end.session();
    match &mut session.end {
        End::Pass(machine, last) => {
            let mut packet = Packet::new();
            let step = machine.from_backend_step(octets, &mut packet);
            TuvTurn::of(
                &step,
                packet.as_slice(),
                machine.state(),
                last,
                &mut session.fresh,
            )
        }
        _ => TuvTurn::none(&mut session.fresh),
    }
}

/// The retransmission timer ends, if it runs: what is sent goes to the peer.
#[unsafe(no_mangle)]
#[tactic(auto, using(crate::proofs::Does::pass_does))]
pub extern "C" fn tuv_pass_timeout(end: &mut TuvEnd) -> TuvTurn
    ensures pass { IfPass end.old.value.end
        (λ m. has_timer m.state ≡ true → AsPass end.new.value.end (λ n.
        PassDoes (pass_timeout m) (sent_of end.old.value) result (sent_of end.new.value) n)) }
    ensures misplaced { has_timer_pass end.old.value.end ≡ false
        → IsMisplaced end.old.value result end.new.value }
    ensures settled { is_settled end.old.value.end ≡ true → is_settled end.new.value.end ≡ true }
{
    let session = end.session();
    match &mut session.end {
        End::Pass(machine, last) if machine.wants_timer() => {
            let mut packet = Packet::new();
            let step = machine.timeout_step(&mut packet);
            TuvTurn::of(
                &step,
                packet.as_slice(),
                machine.state(),
                last,
                &mut session.fresh,
            )
        }
        _ => TuvTurn::none(&mut session.fresh),
    }
}

/// No answer of the backend comes any more (aaaTimeout), if it is waited for.
#[unsafe(no_mangle)]
#[tactic(auto, using(crate::proofs::Does::pass_does))]
pub extern "C" fn tuv_pass_aaa_timeout(end: &mut TuvEnd) -> TuvTurn
    ensures pass { IfPass end.old.value.end
        (λ m. is_aaa_idle m.state ≡ true → AsPass end.new.value.end (λ n.
        PassDoes (pass_aaa_timeout m) (sent_of end.old.value) result (sent_of end.new.value) n)) }
    ensures misplaced { waits_for_backend end.old.value.end ≡ false
        → IsMisplaced end.old.value result end.new.value }
    ensures settled { is_settled end.old.value.end ≡ true → is_settled end.new.value.end ≡ true }
{
    let session = end.session();
    match &mut session.end {
        End::Pass(machine, last) if machine.waits_for_server() => {
            let step = machine.aaa_timeout_step();
            TuvTurn::of(&step, &[], machine.state(), last, &mut session.fresh)
        }
        _ => TuvTurn::none(&mut session.fresh),
    }
}

/// The backend has nothing to ask (aaaEapNoReq), if it is waited for.
#[unsafe(no_mangle)]
#[tactic(auto, using(crate::proofs::Does::pass_does))]
pub extern "C" fn tuv_pass_aaa_noreq(end: &mut TuvEnd) -> TuvTurn
    ensures pass { IfPass end.old.value.end
        (λ m. is_aaa_idle m.state ≡ true → AsPass end.new.value.end (λ n.
        PassDoes (pass_aaa_noreq m) (sent_of end.old.value) result (sent_of end.new.value) n)) }
    ensures misplaced { waits_for_backend end.old.value.end ≡ false
        → IsMisplaced end.old.value result end.new.value }
    ensures settled { is_settled end.old.value.end ≡ true → is_settled end.new.value.end ≡ true }
{
    let session = end.session();
    match &mut session.end {
        End::Pass(machine, last) if machine.waits_for_server() => {
            let step = machine.aaa_noreq_step();
            TuvTurn::of(&step, &[], machine.state(), last, &mut session.fresh)
        }
        _ => TuvTurn::none(&mut session.fresh),
    }
}
