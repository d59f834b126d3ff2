//! The supplicant of IEEE 802.1X-2004 clauses 8.2.11 and 8.2.12.

ghost use Rattle.std.specs.Prelude.{◌≡◌, false, None, IfSome};
ghost use Rattle.eap_method.specs.BothPeers.{both_of};
ghost use Rattle.peer_machine.specs.PeerTable.{initial_peer};
ghost use Rattle.end_objects.specs.Objects.{peer_object_shown};
ghost use Rattle.end_objects.specs.Refusals.{peer_refusal};
ghost use Rattle.end_objects.specs.Settings.{settings_of, kinds_of, peer_setup_of};
ghost use Rattle.supplicant.specs.Table.{shows, answer, step_with, initial_supplicant};
ghost use Rattle.supplicant.specs.Table.{frame_comes, second_goes_by, control_is_set};
ghost use Rattle.supplicant.specs.declared.settings.Control.TheVariants as control;
ghost use Rattle.tuvaddri_c.specs.Answers.{ok, no_memory, refusal_number};
ghost use Rattle.tuvaddri_c.specs.Sent.{sent_of, none_sent};
ghost use Rattle.tuvaddri_c.specs.Supplicants.{IfSupplicant, AsSupplicant, is_supplicant};
ghost use Rattle.tuvaddri_c.specs.Supplicants.{SupplicantDoes, IsNoSupplicant, limits_of};
ghost use Rattle.tuvaddri_c.specs.Supplicants.{no_nonce, link_is_set, logoff_is_set};
ghost use Rattle.tuvaddri_c.specs.Supplicants.{control_numbered};
ghost use Rattle.tuvaddri_c.specs.declared.session.End.TheVariants as ends;

use crate::answers::{NO_MEMORY, STARTED, number_of_refusal};
use crate::handle::TuvEnd;
use crate::sent::empty_frame;
use crate::session::End;
use crate::supplicant_turn::TuvSupplicantTurn;
use eapol_frame::EapolFrame;
use end_objects::{PeerObject, Settings, kinds_of, peer_objects, peer_refusal, peer_setup};
use octet_lists::Nonce;
use peer_machine::PeerMachine;
use std::alloc::Global;
use supplicant::{Control, Limits, Supplicant, SupplicantStep};

/// The timers and counts of a supplicant (clauses 8.2.11.1 and 8.2.12.1). A timer of 0 ends with the first second.
#[repr(C)]
#[derive(Clone, Copy, PartialEq, Eq, Debug)]
pub struct TuvSupplicantLimits {
    /// startPeriod, in seconds (30).
    pub start_period: u32,
    /// maxStart: how many EAPOL-Starts go unanswered (3).
    pub max_start: u32,
    /// authPeriod, in seconds (30).
    pub auth_period: u32,
    /// heldPeriod, in seconds (60).
    pub held_period: u32,
    /// portValid where no authenticator answers: any number but 0 authorizes the port without a login.
    pub port_valid: u8,
}

/// The limits that a program gives.
fn limits_of(told: &TuvSupplicantLimits) -> Limits
    ensures { result ≡ limits_of told.now }
{
    Limits {
        start_period: told.start_period,
        max_start: told.max_start,
        auth_period: told.auth_period,
        held_period: told.held_period,
        port_valid: told.port_valid != 0,
    }
}

/// portControl by its number.
fn control_numbered(number: u8) -> Option<Control>
    ensures { result ≡ control_numbered number }
{
    if number == 1 {
        Some(Control::ForceUnauthorized)
    } else if number == 2 {
        Some(Control::Auto)
    } else if number == 3 {
        Some(Control::ForceAuthorized)
    } else {
        None
    }
}

/// Makes the end this supplicant. (By itself, since the compiler then builds it where it stays.)
fn store_supplicant(end: &mut End, machine: Supplicant<PeerObject>, last: Box<EapolFrame>)
    ensures { end.new ≡ ends.Supplicant machine last }
{
    *end = End::Supplicant(machine, last);
}

/// Makes the end a supplicant without a link, under portControl auto, over a peer with these settings, and answers 0. Else it
/// answers as `tuv_peer_begin`, and the end stays as it was.
#[unsafe(no_mangle)]
#[tactic(auto, using(crate::proofs::TwoRecords::peer_started_with, crate::proofs::TwoRecords::peer_created_with), unfolding(end_objects::specs::Settings::peer_setup_of))]
pub extern "C" fn tuv_supplicant_begin(
    alloc: Global,
    end: &mut TuvEnd,
    settings: &Settings,
    limits: &TuvSupplicantLimits,
) -> u8
    ensures refused { IfSome (peer_refusal (settings_of settings.now))
        (λ reason. result ≡ refusal_number reason) }
    ensures started { peer_refusal (settings_of settings.now) ≡ None → (result ≡ no_memory → ⊥)
        → result ≡ ok }
    ensures initial { result ≡ ok → AsSupplicant end.new.value.end (λ n.
        shows peer_object_shown n ≡ initial_supplicant (limits_of limits.now) control.Auto
        (initial_peer (peer_setup_of (settings_of settings.now) no_nonce)
        (both_of (kinds_of (settings_of settings.now))))) }
    ensures sent { result ≡ ok → sent_of end.new.value ≡ none_sent }
    ensures unchanged { (result ≡ ok → ⊥) → end.new.value ≡ end.old.value }
{
    if let Some(refusal) = peer_refusal(settings) {
        return number_of_refusal(refusal);
    }
    let kinds = kinds_of(settings);
    let Ok(methods) = peer_objects(alloc, kinds.as_slice()) else {
        return NO_MEMORY;
    };
    let Some(last) = empty_frame(alloc) else {
        return NO_MEMORY;
    };
    let peer = PeerMachine::new(peer_setup(settings, &[0; 32]), methods);
    let machine = Supplicant::over(peer, limits_of(limits), Control::Auto);
    let session = end.session();
    store_supplicant(&mut session.end, machine, last);
    session.fresh = false;
    STARTED
}

/// The link comes up, or is lost (portEnabled): any number but 0 is true.
fn set_link(
    machine: &mut Supplicant<PeerObject>,
    enabled: u8,
    frame: &mut EapolFrame,
) -> SupplicantStep
    ensures { link_is_set enabled (shows peer_object_shown machine.old)
        ≡ answer (step_with result frame.new) (shows peer_object_shown machine.new) }
{
    if enabled == 0 {
        machine.link_lost_step();
        SupplicantStep {
            sends: false,
            took: false,
            cause: None,
        }
    } else {
        machine.link_up_step(frame)
    }
}

/// The user logs off, or on again (userLogoff): any number but 0 is true.
fn set_logoff(
    machine: &mut Supplicant<PeerObject>,
    logoff: u8,
    frame: &mut EapolFrame,
) -> SupplicantStep
    ensures { logoff_is_set logoff (shows peer_object_shown machine.old)
        ≡ answer (step_with result frame.new) (shows peer_object_shown machine.new) }
{
    if logoff == 0 {
        machine.logon_step(frame)
    } else {
        machine.logoff_step(frame)
    }
}

/// The link of a supplicant comes up, or is lost (portEnabled): any number but 0 is true.
#[unsafe(no_mangle)]
#[tactic(auto, using(crate::proofs::Does::supplicant_does))]
pub extern "C" fn tuv_supplicant_link(end: &mut TuvEnd, port_enabled: u8) -> TuvSupplicantTurn
    ensures supplicant { IfSupplicant end.old.value.end (λ m. AsSupplicant end.new.value.end (λ n.
        SupplicantDoes (link_is_set port_enabled (shows peer_object_shown m))
        (sent_of end.old.value) result (sent_of end.new.value) n)) }
    ensures misplaced { is_supplicant end.old.value.end ≡ false
        → IsNoSupplicant end.old.value result end.new.value }
{
    let session = end.session();
    match &mut session.end {
        End::Supplicant(machine, last) => {
            let mut frame = EapolFrame::new();
            let step = set_link(machine, port_enabled, &mut frame);
            TuvSupplicantTurn::of(
                &step,
                &frame,
                machine.authorized(),
                machine.state(),
                last,
                &mut session.fresh,
            )
        }
        _ => TuvSupplicantTurn::none(&mut session.fresh),
    }
}

/// Octets of a frame arrive at a supplicant, behind the header of Ethernet, with a nonce that no login had before.
#[unsafe(no_mangle)]
#[tactic(auto, using(crate::proofs::Does::supplicant_does))]
pub extern "C" fn tuv_supplicant_frame(
    end: &mut TuvEnd,
    octets: &[u8],
    nonce: &Nonce,
) -> TuvSupplicantTurn
    ensures supplicant { IfSupplicant end.old.value.end (λ m. AsSupplicant end.new.value.end (λ n.
        SupplicantDoes (frame_comes octets.now nonce.now (shows peer_object_shown m))
        (sent_of end.old.value) result (sent_of end.new.value) n)) }
    ensures misplaced { is_supplicant end.old.value.end ≡ false
        → IsNoSupplicant end.old.value result end.new.value }
{
    let session = end.session();
    match &mut session.end {
        End::Supplicant(machine, last) => {
            let mut frame = EapolFrame::new();
            let step = machine.frame_step(octets, nonce, &mut frame);
            TuvSupplicantTurn::of(
                &step,
                &frame,
                machine.authorized(),
                machine.state(),
                last,
                &mut session.fresh,
            )
        }
        _ => TuvSupplicantTurn::none(&mut session.fresh),
    }
}

/// A second has gone by at a supplicant.
#[unsafe(no_mangle)]
#[tactic(auto, using(crate::proofs::Does::supplicant_does))]
pub extern "C" fn tuv_supplicant_second(end: &mut TuvEnd) -> TuvSupplicantTurn
    ensures supplicant { IfSupplicant end.old.value.end (λ m. AsSupplicant end.new.value.end (λ n.
        SupplicantDoes (second_goes_by (shows peer_object_shown m))
        (sent_of end.old.value) result (sent_of end.new.value) n)) }
    ensures misplaced { is_supplicant end.old.value.end ≡ false
        → IsNoSupplicant end.old.value result end.new.value }
{
    let session = end.session();
    match &mut session.end {
        End::Supplicant(machine, last) => {
            let mut frame = EapolFrame::new();
            let step = machine.tick_step(&mut frame);
            TuvSupplicantTurn::of(
                &step,
                &frame,
                machine.authorized(),
                machine.state(),
                last,
                &mut session.fresh,
            )
        }
        _ => TuvSupplicantTurn::none(&mut session.fresh),
    }
}

/// The user of a supplicant logs off, or on again (userLogoff): any number but 0 is true.
#[unsafe(no_mangle)]
#[tactic(auto, using(crate::proofs::Does::supplicant_does))]
pub extern "C" fn tuv_supplicant_logoff(end: &mut TuvEnd, user_logoff: u8) -> TuvSupplicantTurn
    ensures supplicant { IfSupplicant end.old.value.end (λ m. AsSupplicant end.new.value.end (λ n.
        SupplicantDoes (logoff_is_set user_logoff (shows peer_object_shown m))
        (sent_of end.old.value) result (sent_of end.new.value) n)) }
    ensures misplaced { is_supplicant end.old.value.end ≡ false
        → IsNoSupplicant end.old.value result end.new.value }
{
    let session = end.session();
    match &mut session.end {
        End::Supplicant(machine, last) => {
            let mut frame = EapolFrame::new();
            let step = set_logoff(machine, user_logoff, &mut frame);
            TuvSupplicantTurn::of(
                &step,
                &frame,
                machine.authorized(),
                machine.state(),
                last,
                &mut session.fresh,
            )
        }
        _ => TuvSupplicantTurn::none(&mut session.fresh),
    }
}

/// The management sets portControl of a supplicant: 1 (ForceUnauthorized), 2 (Auto) or 3 (ForceAuthorized). Another number
/// has no place.
#[unsafe(no_mangle)]
#[tactic(auto, using(crate::proofs::Does::supplicant_does))]
pub extern "C" fn tuv_supplicant_control(end: &mut TuvEnd, port_control: u8) -> TuvSupplicantTurn
    ensures supplicant { IfSome (control_numbered port_control) (λ control.
        IfSupplicant end.old.value.end (λ m. AsSupplicant end.new.value.end (λ n.
        SupplicantDoes (control_is_set control (shows peer_object_shown m))
        (sent_of end.old.value) result (sent_of end.new.value) n))) }
    ensures unknown { control_numbered port_control ≡ None
        → IsNoSupplicant end.old.value result end.new.value }
    ensures misplaced { is_supplicant end.old.value.end ≡ false
        → IsNoSupplicant end.old.value result end.new.value }
{
    let session = end.session();
    let Some(control) = control_numbered(port_control) else {
        return TuvSupplicantTurn::none(&mut session.fresh);
    };
    match &mut session.end {
        End::Supplicant(machine, last) => {
            let mut frame = EapolFrame::new();
            let step = machine.control_step(control, &mut frame);
            TuvSupplicantTurn::of(
                &step,
                &frame,
                machine.authorized(),
                machine.state(),
                last,
                &mut session.fresh,
            )
        }
        _ => TuvSupplicantTurn::none(&mut session.fresh),
    }
}
