//! The port of an authenticator of IEEE 802.1X-2004 clauses 8.2.4, 8.2.8 and 8.2.9.

ghost use Rattle.std.specs.Prelude.{◌≡◌, false, None, IfSome};
ghost use Rattle.end_objects.specs.Refusals.{retry_refusal};
ghost use Rattle.pass_through.specs.PassTable.{initial_pass};
ghost use Rattle.switch_port.specs.Port.{initial_port};
ghost use Rattle.switch_port.specs.Port as table;
ghost use Rattle.switch_port.specs.declared.settings.PortControl.TheVariants as control;
ghost use Rattle.tuvaddri_c.specs.Answers.{ok, no_memory, refusal_number};
ghost use Rattle.tuvaddri_c.specs.Ports.{IfPort, AsPort, is_port, PortDoes, IsNoPort};
ghost use Rattle.tuvaddri_c.specs.Ports.{port_limits_of, is_enabled, port_control_numbered};
ghost use Rattle.tuvaddri_c.specs.Ports.{answer_numbered};
ghost use Rattle.tuvaddri_c.specs.Sent.{sent_of, none_sent};

use crate::answers::{NO_MEMORY, STARTED, number_of_refusal};
use crate::handle::TuvEnd;
use crate::port_turn::TuvPortTurn;
use crate::sent::empty_frame;
use crate::session::End;
use end_objects::retry_refusal;
use octet_lists::Packet;
use std::alloc::Global;
use switch_port::{PortControl, PortLimits, ServerAnswer, SwitchPort};

/// The times of a port, in seconds, and its bound (clauses 8.2.4.1, 8.2.8.1 and 8.2.9.1). A time of 0 ends with the first
/// second, but for that of reauthentications.
#[repr(C)]
#[derive(Clone, Copy, PartialEq, Eq, Debug)]
pub struct TuvPortLimits {
    /// quietPeriod: in HELD (60).
    pub quiet_period: u32,
    /// serverTimeout: for an answer of the server (30).
    pub server_timeout: u32,
    /// After which a Request is sent again (3; RFC 3748 section 4.3).
    pub retrans_period: u32,
    /// reAuthPeriod: after which a station logs in again (3,600); 0: never.
    pub re_auth_period: u32,
    /// reAuthMax: the rounds of a login that don't shut the port (2).
    pub re_auth_max: u8,
}

/// The limits that a program gives.
fn limits_of(told: &TuvPortLimits) -> PortLimits
    ensures { result ≡ port_limits_of told.now }
{
    PortLimits {
        quiet_period: told.quiet_period,
        server_timeout: told.server_timeout,
        retrans_period: told.retrans_period,
        re_auth_period: told.re_auth_period,
        re_auth_max: told.re_auth_max,
    }
}

/// AuthControlledPortControl by its number.
fn control_numbered(number: u8) -> Option<PortControl>
    ensures { result ≡ port_control_numbered number }
{
    if number == 1 {
        Some(PortControl::ForceUnauthorized)
    } else if number == 2 {
        Some(PortControl::Auto)
    } else if number == 3 {
        Some(PortControl::ForceAuthorized)
    } else {
        None
    }
}

/// An answer of the server by its Code.
fn answer_numbered(code: u8) -> Option<ServerAnswer>
    ensures { result ≡ answer_numbered code }
{
    if code == 2 {
        Some(ServerAnswer::Accept)
    } else if code == 3 {
        Some(ServerAnswer::Reject)
    } else if code == 11 {
        Some(ServerAnswer::Challenge)
    } else {
        None
    }
}

/// Makes the end a port without a link, under portControl auto, and answers 0. Its Identity Requests have the Identifier
/// `first_id`; a Request is sent again at most `max_retrans` times. If that is over 10 it answers 7, for want of memory 8,
/// and the end stays as it was.
#[unsafe(no_mangle)]
pub extern "C" fn tuv_port_begin(
    alloc: Global,
    end: &mut TuvEnd,
    first_id: u8,
    max_retrans: u8,
    limits: &TuvPortLimits,
) -> u8
    ensures refused { IfSome (retry_refusal max_retrans)
        (λ reason. result ≡ refusal_number reason) }
    ensures started { retry_refusal max_retrans ≡ None → (result ≡ no_memory → ⊥)
        → result ≡ ok }
    ensures initial { result ≡ ok
        → AsPort end.new.value.end (λ n. n ≡ initial_port (port_limits_of limits.now) control.Auto
        (initial_pass first_id max_retrans)) }
    ensures sent { result ≡ ok → sent_of end.new.value ≡ none_sent }
    ensures unchanged { (result ≡ ok → ⊥) → end.new.value ≡ end.old.value }
{
    if let Some(refusal) = retry_refusal(max_retrans) {
        return number_of_refusal(refusal);
    }
    let Some(last) = empty_frame(alloc) else {
        return NO_MEMORY;
    };
    let machine = SwitchPort::new(first_id, max_retrans, PortControl::Auto, limits_of(limits));
    let session = end.session();
    session.end = End::Port(machine, last);
    session.fresh = false;
    STARTED
}

/// The link of a port comes up, or goes down (portEnabled): any number but 0 is true.
#[unsafe(no_mangle)]
#[tactic(auto, using(crate::proofs::Does::port_does))]
pub extern "C" fn tuv_port_link(end: &mut TuvEnd, port_enabled: u8) -> TuvPortTurn
    ensures port { IfPort end.old.value.end (λ m. AsPort end.new.value.end (λ n.
        PortDoes (table.port_link m (is_enabled port_enabled))
        (sent_of end.old.value) result (sent_of end.new.value) n)) }
    ensures misplaced { is_port end.old.value.end ≡ false
        → IsNoPort end.old.value result end.new.value }
{
    let session = end.session();
    match &mut session.end {
        End::Port(machine, last) => {
            let mut packet = Packet::new();
            let step = machine.link_step(port_enabled != 0, &mut packet);
            TuvPortTurn::of(step, packet.as_slice(), machine, last, &mut session.fresh)
        }
        _ => TuvPortTurn::none(&mut session.fresh),
    }
}

/// Octets of a frame arrive at a port from its station, behind the header of Ethernet.
#[unsafe(no_mangle)]
#[tactic(auto, using(crate::proofs::Does::port_does))]
pub extern "C" fn tuv_port_frame(end: &mut TuvEnd, octets: &[u8]) -> TuvPortTurn
    ensures port { IfPort end.old.value.end (λ m. AsPort end.new.value.end (λ n.
        PortDoes (table.port_frame m octets.now)
        (sent_of end.old.value) result (sent_of end.new.value) n)) }
    ensures misplaced { is_port end.old.value.end ≡ false
        → IsNoPort end.old.value result end.new.value }
{
    let session = end.session();
    match &mut session.end {
        End::Port(machine, last) => {
            let mut packet = Packet::new();
            let step = machine.frame_step(octets, &mut packet);
            TuvPortTurn::of(step, packet.as_slice(), machine, last, &mut session.fresh)
        }
        _ => TuvPortTurn::none(&mut session.fresh),
    }
}

/// A second has gone by at a port.
#[unsafe(no_mangle)]
#[tactic(auto, using(crate::proofs::Does::port_does))]
pub extern "C" fn tuv_port_second(end: &mut TuvEnd) -> TuvPortTurn
    ensures port { IfPort end.old.value.end (λ m. AsPort end.new.value.end (λ n.
        PortDoes (table.port_tick m)
        (sent_of end.old.value) result (sent_of end.new.value) n)) }
    ensures misplaced { is_port end.old.value.end ≡ false
        → IsNoPort end.old.value result end.new.value }
{
    let session = end.session();
    match &mut session.end {
        End::Port(machine, last) => {
            let mut packet = Packet::new();
            let step = machine.tick_step(&mut packet);
            TuvPortTurn::of(step, packet.as_slice(), machine, last, &mut session.fresh)
        }
        _ => TuvPortTurn::none(&mut session.fresh),
    }
}

/// An answer to a port's outstanding request, whose authenticators are good: its Code, 2 (Access-Accept), 3 (Access-Reject) or
/// 11 (Access-Challenge), and the EAP packet that it carries. Another Code has no place.
#[unsafe(no_mangle)]
#[tactic(auto, using(crate::proofs::Does::port_does))]
pub extern "C" fn tuv_port_answer(end: &mut TuvEnd, code: u8, octets: &[u8]) -> TuvPortTurn
    ensures port { IfSome (answer_numbered code) (λ answer.
        IfPort end.old.value.end (λ m. AsPort end.new.value.end (λ n.
        PortDoes (table.port_answer m answer octets.now)
        (sent_of end.old.value) result (sent_of end.new.value) n))) }
    ensures unknown { answer_numbered code ≡ None
        → IsNoPort end.old.value result end.new.value }
    ensures misplaced { is_port end.old.value.end ≡ false
        → IsNoPort end.old.value result end.new.value }
{
    let session = end.session();
    let Some(answer) = answer_numbered(code) else {
        return TuvPortTurn::none(&mut session.fresh);
    };
    match &mut session.end {
        End::Port(machine, last) => {
            let mut packet = Packet::new();
            let step = machine.answer_step(answer, octets, &mut packet);
            TuvPortTurn::of(step, packet.as_slice(), machine, last, &mut session.fresh)
        }
        _ => TuvPortTurn::none(&mut session.fresh),
    }
}

/// No answer to a port's outstanding request comes any more (aaaTimeout).
#[unsafe(no_mangle)]
#[tactic(auto, using(crate::proofs::Does::port_does))]
pub extern "C" fn tuv_port_aaa_timeout(end: &mut TuvEnd) -> TuvPortTurn
    ensures port { IfPort end.old.value.end (λ m. AsPort end.new.value.end (λ n.
        PortDoes (table.port_server_lost m)
        (sent_of end.old.value) result (sent_of end.new.value) n)) }
    ensures misplaced { is_port end.old.value.end ≡ false
        → IsNoPort end.old.value result end.new.value }
{
    let session = end.session();
    match &mut session.end {
        End::Port(machine, last) => {
            let mut packet = Packet::new();
            let step = machine.server_lost_step(&mut packet);
            TuvPortTurn::of(step, packet.as_slice(), machine, last, &mut session.fresh)
        }
        _ => TuvPortTurn::none(&mut session.fresh),
    }
}

/// The management sets AuthControlledPortControl of a port: 1 (ForceUnauthorized), 2 (Auto) or 3 (ForceAuthorized). Another
/// number has no place.
#[unsafe(no_mangle)]
#[tactic(auto, using(crate::proofs::Does::port_does))]
pub extern "C" fn tuv_port_control(end: &mut TuvEnd, port_control: u8) -> TuvPortTurn
    ensures port { IfSome (port_control_numbered port_control) (λ control.
        IfPort end.old.value.end (λ m. AsPort end.new.value.end (λ n.
        PortDoes (table.port_control m control)
        (sent_of end.old.value) result (sent_of end.new.value) n))) }
    ensures unknown { port_control_numbered port_control ≡ None
        → IsNoPort end.old.value result end.new.value }
    ensures misplaced { is_port end.old.value.end ≡ false
        → IsNoPort end.old.value result end.new.value }
{
    let session = end.session();
    let Some(control) = control_numbered(port_control) else {
        return TuvPortTurn::none(&mut session.fresh);
    };
    match &mut session.end {
        End::Port(machine, last) => {
            let mut packet = Packet::new();
            let step = machine.control_step(control, &mut packet);
            TuvPortTurn::of(step, packet.as_slice(), machine, last, &mut session.fresh)
        }
        _ => TuvPortTurn::none(&mut session.fresh),
    }
}

/// The management asks a port's station to log in again (reAuthenticate, clause 8.2.8).
#[unsafe(no_mangle)]
#[tactic(auto, using(crate::proofs::Does::port_does))]
pub extern "C" fn tuv_port_reauthenticate(end: &mut TuvEnd) -> TuvPortTurn
    ensures port { IfPort end.old.value.end (λ m. AsPort end.new.value.end (λ n.
        PortDoes (table.port_reauthenticate m)
        (sent_of end.old.value) result (sent_of end.new.value) n)) }
    ensures misplaced { is_port end.old.value.end ≡ false
        → IsNoPort end.old.value result end.new.value }
{
    let session = end.session();
    match &mut session.end {
        End::Port(machine, last) => {
            let mut packet = Packet::new();
            let step = machine.reauthenticate_step(&mut packet);
            TuvPortTurn::of(step, packet.as_slice(), machine, last, &mut session.fresh)
        }
        _ => TuvPortTurn::none(&mut session.fresh),
    }
}
