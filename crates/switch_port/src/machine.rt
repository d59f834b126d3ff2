//! The port of an authenticator.
//!
//! The table of IEEE 802.1X-2004 clauses 8.2.4 (Authenticator PAE), 8.2.8 (Reauthentication Timer)
//! and 8.2.9 (Backend Authentication), where the port's EAP is the pass-through of RFC 4137
//! section 7. One call is one row. In each phase one timer counts.
//!
//! - *Ask*: RESTART, CONNECTING, AUTHENTICATING, REQUEST. The pass-through restarts, its Identity
//!   Request goes to the station, and the timer is retrans_period.
//! - *Ask anew*: DISCONNECTED before it. The port is shut, and reAuthCount is 1.
//! - *Ask again*: reAuthCount rises and the port stays as it is; at reAuthMax it is *ask anew*.
//! - *By control*: Auto: ask anew. ForceAuthorized, ForceUnauthorized: FORCE_AUTH opens the port,
//!   FORCE_UNAUTH shuts it, and a Success or a Failure of the port's own, with the Identifier 0, goes to the
//!   station.
//!
//! | Input | DOWN | AUTHENTICATING | AUTHENTICATED | HELD | FORCE_AUTH, FORCE_UNAUTH |
//! |---|---|---|---|---|---|
//! | link up | by control | - | - | - | - |
//! | link down | - | shut, DOWN | shut, DOWN | DOWN | shut, DOWN |
//! | EAPOL-Start | discard | ask again | ask again | discard | by control |
//! | EAPOL-Logoff | discard | ask anew | ask anew | discard | discard |
//! | EAP packet | discard | if the pass-through takes it: to the server, timer serverTimeout | discard | discard | discard |
//! | other frame | discard | discard | discard | discard | discard |
//! | second, the last of the timer | - | the station is awaited: the Request again, at the end ask again; the server is: ask again | ask again; reAuthPeriod 0: - | ask again | - |
//! | Challenge | discard | with a Request: to the station, timer retrans_period; else discard | discard | discard | discard |
//! | Accept | discard | with a Success: to the station, open, AUTHENTICATED, timer reAuthPeriod; else shut, HELD | discard | discard | discard |
//! | Reject | discard | with a Failure: to the station; shut, HELD, timer quietPeriod | discard | discard | discard |
//! | server lost | - | ask again | - | - | - |
//! | another control | noted | by control | by control | by control | by control |
//! | reauthenticate | - | - | ask again | - | - |
//!
//! An answer of the server is taken, and the server is lost, in AUTHENTICATING while the
//! pass-through is in AAA_IDLE; else an answer is discarded.

ghost use Rattle.std.specs.Prelude.{◌≡◌, ◌≤◌, true, if◌then◌else◌};
ghost use Rattle.eap_packet.specs.Fault.{packet_of};
ghost use Rattle.pass_through.specs.PassTable.{initial_pass, has_timer, pass_timeout};
ghost use Rattle.switch_port.specs.declared.step.PortStep.TheVariants.{Rests, ToStation, ToServer};
ghost use Rattle.switch_port.specs.Port.{is_same, matches};

use crate::settings::{Phase, PortControl, PortLimits};
use crate::step::{PortCause, PortStep, ServerAnswer};
use eap_packet::{Code, decode, encode_end_into};
use eapol_frame::{EapolContents, read_frame};
use octet_lists::Packet;
use pass_through::PassThrough;
use std::marker::Model;

/// The port of an authenticator, for one station. Contracts see its variables.
#[derive(Drop)]
pub struct SwitchPort {
    limits: PortLimits,
    control: PortControl,
    phase: Phase,
    authorized: bool,
    pass: PassThrough,
    re_auth_count: u8,
    timer: u32,
}

impl Model for SwitchPort {
    ghost use Rattle.switch_port.specs.Port.{PortVariables};

    ghost Value = { PortVariables };

    ghost view = { λ p. record { limits = p.limits; control = p.control; phase = p.phase; authorized = p.authorized; pass = p.pass; re_auth_count = p.re_auth_count; timer = p.timer } };
}

impl SwitchPort {
    ghost use Rattle.switch_port.specs.Port.{initial_port, port_link, port_frame, port_tick};
    ghost use Rattle.switch_port.specs.Port.{port_answer, port_server_lost, port_control};
    ghost use Rattle.switch_port.specs.Port.{port_reauthenticate, answer, step_with, asks};
    ghost use Rattle.switch_port.specs.Port.{disconnects, connects, forces_open, forces_shut};
    ghost use Rattle.switch_port.specs.Port.{begins, starts, logs_off, from_station, settles};
    ghost use Rattle.switch_port.specs.Port.{awaits_server, resends, expires, changes};

    /// A port without a link, which is shut. Its Identity Requests have this first Identifier, and a
    /// Request is sent again at most `max_retrans` times, which is at most 10.
    pub fn new(
        first_id: u8,
        max_retrans: u8,
        control: PortControl,
        limits: PortLimits,
    ) -> SwitchPort
        requires { max_retrans ≤ 10 }
        ensures { result ≡ initial_port limits control (initial_pass first_id max_retrans) }
    {
        SwitchPort {
            limits,
            control,
            phase: Phase::Down,
            authorized: false,
            pass: PassThrough::new(first_id, max_retrans),
            re_auth_count: 0,
            timer: 0,
        }
    }

    /// The link comes up or goes down (portEnabled).
    #[tactic(auto, unfolding(crate::specs::Port::port_link))]
    pub fn link_step(&mut self, up: bool, packet: &mut Packet) -> PortStep
        ensures { port_link self.old up ≡ answer (step_with result packet.new) self.new }
    {
        if !up {
            self.phase = Phase::Down;
            self.authorized = false;
            PortStep::Rests
        } else if matches!(self.phase, Phase::Down) {
            self.begin(packet)
        } else {
            PortStep::Rests
        }
    }

    /// Octets arrive from the station, behind the header of Ethernet.
    #[tactic(auto, unfolding(crate::specs::Port::port_frame))]
    pub fn frame_step(&mut self, octets: &[u8], packet: &mut Packet) -> PortStep
        ensures { port_frame self.old octets.now ≡ answer (step_with result packet.new) self.new }
    {
        match read_frame(octets) {
            Err(cause) => PortStep::Discards(PortCause::NoFrame(cause)),
            Ok(view) => match view.contents() {
                EapolContents::Packet(body) => self.receive(body, packet),
                EapolContents::Start => self.start(packet),
                EapolContents::Logoff => self.log_off(packet),
                EapolContents::Other => PortStep::Discards(PortCause::OtherType),
            },
        }
    }

    /// A second has gone by.
    #[tactic(auto, unfolding(crate::specs::Port::port_tick))]
    pub fn tick_step(&mut self, packet: &mut Packet) -> PortStep
        ensures { port_tick self.old ≡ answer (step_with result packet.new) self.new }
    {
        if self.timer <= 1 {
            self.expire(packet)
        } else {
            self.timer -= 1;
            PortStep::Rests
        }
    }

    /// An answer to the outstanding request, whose authenticators are good, and the EAP packet that
    /// it carries.
    #[tactic(auto, unfolding(crate::specs::Port::port_answer))]
    pub fn answer_step(
        &mut self,
        code: ServerAnswer,
        octets: &[u8],
        packet: &mut Packet,
    ) -> PortStep
        ensures { port_answer self.old code octets.now
            ≡ answer (step_with result packet.new) self.new }
    {
        if !self.waits_for_server() {
            PortStep::Discards(PortCause::OutOfPhase)
        } else if matches(code, octets) {
            let step = self.pass.from_backend_step(octets, packet);
            self.settle(code);
            for_station(step.sends)
        } else if matches!(code, ServerAnswer::Challenge) {
            PortStep::Discards(PortCause::NoRequest)
        } else {
            self.settle(ServerAnswer::Reject);
            PortStep::Rests
        }
    }

    /// No answer to the outstanding request comes any more.
    #[tactic(auto, unfolding(crate::specs::Port::port_server_lost))]
    pub fn server_lost_step(&mut self, packet: &mut Packet) -> PortStep
        ensures { port_server_lost self.old ≡ answer (step_with result packet.new) self.new }
    {
        if self.waits_for_server() {
            self.connect(packet)
        } else {
            PortStep::Rests
        }
    }

    /// The management sets AuthControlledPortControl.
    #[tactic(auto, unfolding(crate::specs::Port::port_control))]
    pub fn control_step(&mut self, control: PortControl, packet: &mut Packet) -> PortStep
        ensures { port_control self.old control ≡ answer (step_with result packet.new) self.new }
    {
        if is_same(control, self.control) {
            PortStep::Rests
        } else {
            self.control = control;
            self.change(packet)
        }
    }

    /// The management asks for a reauthentication (clause 8.2.8).
    #[tactic(auto, unfolding(crate::specs::Port::port_reauthenticate))]
    pub fn reauthenticate_step(&mut self, packet: &mut Packet) -> PortStep
        ensures { port_reauthenticate self.old ≡ answer (step_with result packet.new) self.new }
    {
        if matches!(self.phase, Phase::Authenticated) {
            self.connect(packet)
        } else {
            PortStep::Rests
        }
    }

    /// authPortStatus: true if the port is open.
    pub fn authorized(&self) -> bool
        ensures { result ≡ self.now.authorized }
    {
        self.authorized
    }

    /// Where the port rests.
    pub fn phase(&self) -> Phase
        ensures { result ≡ self.now.phase }
    {
        self.phase
    }

    /// True while an answer of the server is awaited; else an outstanding request is given up.
    pub fn waits_for_server(&self) -> bool
        ensures { result ≡ awaits_server self.now.phase self.now }
    {
        match self.phase {
            Phase::Authenticating => self.pass.waits_for_server(),
            _ => false,
        }
    }

    /// RESTART, CONNECTING, AUTHENTICATING, REQUEST.
    fn ask(&mut self, packet: &mut Packet) -> PortStep
        ensures { asks self.old ≡ answer (step_with result packet.new) self.new }
    {
        let step = self.pass.restart_step(packet);
        self.phase = Phase::Authenticating;
        self.timer = self.limits.retrans_period;
        for_station(step.sends)
    }

    /// DISCONNECTED, and then it asks.
    fn disconnect(&mut self, packet: &mut Packet) -> PortStep
        ensures { disconnects self.old ≡ answer (step_with result packet.new) self.new }
    {
        self.authorized = false;
        self.re_auth_count = 1;
        self.ask(packet)
    }

    /// RESTART: one round more, or DISCONNECTED.
    fn connect(&mut self, packet: &mut Packet) -> PortStep
        ensures { connects self.old ≡ answer (step_with result packet.new) self.new }
    {
        if self.re_auth_count < self.limits.re_auth_max {
            self.re_auth_count += 1;
            self.ask(packet)
        } else {
            self.disconnect(packet)
        }
    }

    /// FORCE_AUTH.
    fn force_open(&mut self, packet: &mut Packet) -> PortStep
        ensures { forces_open self.old ≡ answer (step_with result packet.new) self.new }
    {
        encode_end_into(packet, Code::Success, 0);
        self.phase = Phase::ForceAuth;
        self.authorized = true;
        PortStep::ToStation
    }

    /// FORCE_UNAUTH.
    fn force_shut(&mut self, packet: &mut Packet) -> PortStep
        ensures { forces_shut self.old ≡ answer (step_with result packet.new) self.new }
    {
        encode_end_into(packet, Code::Failure, 0);
        self.phase = Phase::ForceUnauth;
        self.authorized = false;
        PortStep::ToStation
    }

    /// What the control leads to.
    fn begin(&mut self, packet: &mut Packet) -> PortStep
        ensures { begins self.old.control self.old
            ≡ answer (step_with result packet.new) self.new }
    {
        match self.control {
            PortControl::Auto => self.disconnect(packet),
            PortControl::ForceAuthorized => self.force_open(packet),
            PortControl::ForceUnauthorized => self.force_shut(packet),
        }
    }

    /// What another control leads to.
    fn change(&mut self, packet: &mut Packet) -> PortStep
        ensures { changes self.old.phase self.old ≡ answer (step_with result packet.new) self.new }
    {
        if matches!(self.phase, Phase::Down) {
            self.authorized = false;
            PortStep::Rests
        } else {
            self.begin(packet)
        }
    }

    /// EAPOL-Start.
    fn start(&mut self, packet: &mut Packet) -> PortStep
        ensures { starts self.old.phase self.old ≡ answer (step_with result packet.new) self.new }
    {
        match self.phase {
            Phase::Authenticating => self.connect(packet),
            Phase::Authenticated => self.connect(packet),
            Phase::ForceAuth => self.begin(packet),
            Phase::ForceUnauth => self.begin(packet),
            _ => PortStep::Discards(PortCause::OutOfPhase),
        }
    }

    /// EAPOL-Logoff.
    fn log_off(&mut self, packet: &mut Packet) -> PortStep
        ensures { logs_off self.old.phase self.old ≡ answer (step_with result packet.new) self.new }
    {
        match self.phase {
            Phase::Authenticating => self.disconnect(packet),
            Phase::Authenticated => self.disconnect(packet),
            _ => PortStep::Discards(PortCause::OutOfPhase),
        }
    }

    /// An EAP packet of the station: RESPONSE, if the pass-through takes it.
    fn receive(&mut self, octets: &[u8], packet: &mut Packet) -> PortStep
        ensures { from_station self.old.phase octets.now self.old
            ≡ answer (step_with result packet.new) self.new }
    {
        if matches!(self.phase, Phase::Authenticating) {
            let step = self.pass.from_peer_step(octets, packet);
            match step.cause {
                Some(cause) => PortStep::Discards(PortCause::NoPacket(cause)),
                None => {
                    self.timer = self.limits.server_timeout;
                    for_server(step.sends)
                }
            }
        } else {
            PortStep::Discards(PortCause::OutOfPhase)
        }
    }

    /// REQUEST by a Challenge, AUTHENTICATED by an Accept, HELD by a Reject.
    fn settle(&mut self, code: ServerAnswer)
        ensures { self.new ≡ settles code self.old }
    {
        match code {
            ServerAnswer::Challenge => {
                self.timer = self.limits.retrans_period;
            }
            ServerAnswer::Accept => {
                self.phase = Phase::Authenticated;
                self.authorized = true;
                self.re_auth_count = 0;
                self.timer = self.limits.re_auth_period;
            }
            ServerAnswer::Reject => {
                self.phase = Phase::Held;
                self.authorized = false;
                self.timer = self.limits.quiet_period;
            }
        }
    }

    /// The timer of the phase ends.
    fn expire(&mut self, packet: &mut Packet) -> PortStep
        ensures { expires self.old.phase self.old ≡ answer (step_with result packet.new) self.new }
    {
        match self.phase {
            Phase::Authenticating => {
                if self.pass.wants_timer() {
                    self.resend(packet)
                } else {
                    self.connect(packet)
                }
            }
            Phase::Authenticated => {
                if self.limits.re_auth_period == 0 {
                    PortStep::Rests
                } else {
                    self.connect(packet)
                }
            }
            Phase::Held => self.connect(packet),
            _ => PortStep::Rests,
        }
    }

    /// The Request again; past MaxRetrans one round more.
    fn resend(&mut self, packet: &mut Packet) -> PortStep
        requires { has_timer self.old.pass.state ≡ true }
        ensures { resends (pass_timeout self.old.pass) self.old
            ≡ answer (step_with result packet.new) self.new }
    {
        let step = self.pass.timeout_step(packet);
        if self.pass.ended() {
            self.connect(packet)
        } else {
            self.timer = self.limits.retrans_period;
            for_station(step.sends)
        }
    }
}

/// What the pass-through sends goes to the station.
fn for_station(sends: bool) -> PortStep
    ensures { result ≡ (if sends then ToStation else Rests) }
{
    if sends {
        PortStep::ToStation
    } else {
        PortStep::Rests
    }
}

/// What the pass-through sends goes to the server.
fn for_server(sends: bool) -> PortStep
    ensures { result ≡ (if sends then ToServer else Rests) }
{
    if sends {
        PortStep::ToServer
    } else {
        PortStep::Rests
    }
}

/// Whether an answer's packet says what its Code says.
fn matches(code: ServerAnswer, octets: &[u8]) -> bool
    ensures { result ≡ matches code (packet_of octets.now) }
{
    match decode(octets) {
        Ok(view) => match view.code {
            Code::Request => code == ServerAnswer::Challenge,
            Code::Success => code == ServerAnswer::Accept,
            Code::Failure => code == ServerAnswer::Reject,
            Code::Response => false,
        },
        Err(_) => false,
    }
}

/// Whether both are the same control.
fn is_same(one: PortControl, other: PortControl) -> bool
    ensures { result ≡ is_same one other }
{
    one == other
}
