//! The supplicant of IEEE 802.1X-2004 clauses 8.2.11 and 8.2.12 over the peer of RFC 4137 section 4.
//!
//! One call is one row. `-` is nothing: what came changes nothing.
//!
//! | State | link up | link lost | EAP packet | a second; its timer ends | logoff | control set |
//! |---|---|---|---|---|---|---|
//! | DISCONNECTED | by control: CONNECTING with a Start; S_FORCE_AUTH; S_FORCE_UNAUTH with a Logoff; logged off: LOGOFF with a Logoff | - | discarded | - | noted | noted |
//! | CONNECTING | - | DISCONNECTED | a Request: a new login, AUTHENTICATING; else discarded | another Start, at most maxStart; then HELD, or by portValid AUTHENTICATED | LOGOFF, a Logoff | as link up |
//! | AUTHENTICATING | - | DISCONNECTED | the peer's step: a Response; Success with a report: AUTHENTICATED; another end: HELD | CONNECTING, a Start | LOGOFF, a Logoff | as link up |
//! | AUTHENTICATED | - | DISCONNECTED | as in CONNECTING; the port stays as it is | - | LOGOFF, a Logoff | as link up |
//! | HELD | - | DISCONNECTED | as in CONNECTING | CONNECTING, a Start | LOGOFF, a Logoff | as link up |
//! | S_FORCE_AUTH, S_FORCE_UNAUTH | - | DISCONNECTED | discarded | - | LOGOFF, a Logoff | as link up |
//! | LOGOFF | - | DISCONNECTED | discarded | - | - | noted |
//!
//! In LOGOFF a logon leads to where the link's coming up does. The port is authorized in AUTHENTICATED and S_FORCE_AUTH, and
//! stays so through a reauthentication until it fails, is unanswered, or the link is lost.

ghost use Rattle.std.specs.Prelude.{◌≡◌, ◌↔◌, ◌-◌, true, false, map, nat_le, IfSome, IsSome};
ghost use Rattle.login_setup.specs.Setup.{IsSoundPeer, HasKeys};
ghost use Rattle.eap_packet.specs.Fault.{packet_of};
ghost use Rattle.eap_method.specs.Peer.{have_each, peer_kinds, peer_views};
ghost use Rattle.peer_machine.specs.Expanded.{peer_receives};
ghost use Rattle.peer_machine.specs.PeerTable.{initial_peer, now_of, peer_reports};
ghost use Rattle.supplicant.specs.Table as table;

use crate::settings::{Control, Limits, PaeState};
use crate::step::{Discard, SupplicantStep, discarded, sent, silent};
use eap_method::{NoRecords, PeerMethod, Report, Tags};
use eap_packet::{Code, State, decode};
use eapol_frame::{EAP_PACKET, EAPOL_LOGOFF, EAPOL_START, EapolFrame, read_frame, write_frame};
use login_setup::PeerSetup;
use octet_lists::{Nonce, Packet};
use peer_machine::PeerMachine;
use std::marker::Model;

/// A supplicant of one port.
#[derive(Drop)]
pub struct Supplicant<M = Box<dyn PeerMethod>> {
    limits: Limits,
    control: Control,
    logged_off: bool,
    state: PaeState,
    authorized: bool,
    start_count: u32,
    timer: u32,
    peer: PeerMachine<M>,
}

impl<M> Model for Supplicant<M> {
    ghost use Rattle.supplicant.specs.Table.{SupplicantValue};

    ghost Value = { SupplicantValue M };

    ghost view = { λ s. record {
      limits = s.limits;
      control = s.control;
      logged_off = s.logged_off;
      state = s.state;
      authorized = s.authorized;
      start_count = s.start_count;
      timer = s.timer;
      peer = s.peer;
    } };
}

impl<M: PeerMethod> Supplicant<M> {
    ghost use Rattle.supplicant.specs.Table.{answer, shows, step_with};

    /// A supplicant without a link, with these settings and an object of each method that they allow; None if the peer doesn't
    /// take them.
    pub fn new(
        setup: PeerSetup,
        methods: Vec<M>,
        limits: Limits,
        control: Control,
    ) -> Option<Supplicant<M>>
        ensures accepted { IsSome result ↔ (IsSoundPeer setup × HasKeys setup
            × (have_each (peer_kinds (map M.peer_shown methods.items)) setup.methods ≡ true)) }
        ensures initial { IfSome result (λ supplicant. shows M.peer_shown supplicant
            ≡ table.initial_supplicant limits control
            (initial_peer setup (peer_views setup.methods (map M.peer_shown methods.items)))) }
    {
        if PeerMachine::takes(&setup, methods.as_slice()) {
            Some(Supplicant {
                limits,
                control,
                logged_off: false,
                state: PaeState::Disconnected,
                authorized: false,
                start_count: 0,
                timer: 0,
                peer: PeerMachine::new(setup, methods),
            })
        } else {
            None
        }
    }

    /// The same over this peer, each of whose methods has an object.
    pub fn over(peer: PeerMachine<M>, limits: Limits, control: Control) -> Supplicant<M>
        requires { table.has_objects M.peer_shown peer ≡ true }
        ensures { shows M.peer_shown result
            ≡ table.initial_supplicant limits control (now_of M.peer_shown peer) }
    {
        Supplicant {
            limits,
            control,
            logged_off: false,
            state: PaeState::Disconnected,
            authorized: false,
            start_count: 0,
            timer: 0,
            peer,
        }
    }

    /// The link comes up.
    #[tactic(auto, unfolding(crate::specs::Table::link_comes_up))]
    pub fn link_up_step(&mut self, frame: &mut EapolFrame) -> SupplicantStep
        ensures { table.link_comes_up (shows M.peer_shown self.old)
            ≡ answer (step_with result frame.new) (shows M.peer_shown self.new) }
    {
        match self.state {
            PaeState::Disconnected if self.logged_off => self.leave(frame),
            PaeState::Disconnected => self.begin(self.control, frame),
            _ => silent(),
        }
    }

    /// The link is lost: the port is unauthorized.
    #[tactic(auto, unfolding(crate::specs::Table::link_is_lost))]
    pub fn link_lost_step(&mut self)
        ensures { table.link_is_lost (shows M.peer_shown self.old)
            ≡ table.rests (shows M.peer_shown self.new) }
    {
        self.state = PaeState::Disconnected;
        self.authorized = false;
    }

    /// The user logs off (userLogoff).
    #[tactic(auto, unfolding(crate::specs::Table::user_logs_off))]
    pub fn logoff_step(&mut self, frame: &mut EapolFrame) -> SupplicantStep
        ensures { table.user_logs_off (shows M.peer_shown self.old)
            ≡ answer (step_with result frame.new) (shows M.peer_shown self.new) }
    {
        match self.state {
            PaeState::Disconnected => {
                self.logged_off = true;
                silent()
            }
            PaeState::Logoff => silent(),
            _ => {
                self.logged_off = true;
                self.leave(frame)
            }
        }
    }

    /// The user logs on again.
    #[tactic(auto, unfolding(crate::specs::Table::user_logs_on))]
    pub fn logon_step(&mut self, frame: &mut EapolFrame) -> SupplicantStep
        ensures { table.user_logs_on (shows M.peer_shown self.old)
            ≡ answer (step_with result frame.new) (shows M.peer_shown self.new) }
    {
        self.logged_off = false;
        match self.state {
            PaeState::Logoff => self.begin(self.control, frame),
            _ => silent(),
        }
    }

    /// The management sets suppPortControl: at a link, and not logged off, another control takes effect at once.
    #[tactic(auto, unfolding(crate::specs::Table::control_is_set))]
    pub fn control_step(&mut self, control: Control, frame: &mut EapolFrame) -> SupplicantStep
        ensures { table.control_is_set control (shows M.peer_shown self.old)
            ≡ answer (step_with result frame.new) (shows M.peer_shown self.new) }
    {
        match self.state {
            PaeState::Disconnected | PaeState::Logoff => {
                self.control = control;
                silent()
            }
            _ => self.change(control, frame),
        }
    }

    /// A second has gone by.
    #[tactic(auto, unfolding(crate::specs::Table::second_goes_by))]
    pub fn tick_step(&mut self, frame: &mut EapolFrame) -> SupplicantStep
        ensures { table.second_goes_by (shows M.peer_shown self.old)
            ≡ answer (step_with result frame.new) (shows M.peer_shown self.new) }
    {
        match self.state {
            PaeState::Connecting => {
                if self.timer_ends() {
                    self.stay_unanswered(frame)
                } else {
                    silent()
                }
            }
            PaeState::Authenticating | PaeState::Held => {
                if self.timer_ends() {
                    self.connect(frame)
                } else {
                    silent()
                }
            }
            _ => silent(),
        }
    }

    /// Octets of a frame have come from the authenticator, with a nonce that no login had before: a Request to a supplicant that
    /// isn't amid a login begins one, and takes it.
    #[tactic(auto, unfolding(crate::specs::Table::frame_comes))]
    pub fn frame_step(
        &mut self,
        octets: &[u8],
        nonce: &Nonce,
        frame: &mut EapolFrame,
    ) -> SupplicantStep
        ensures { table.frame_comes octets.now nonce.now (shows M.peer_shown self.old)
            ≡ answer (step_with result frame.new) (shows M.peer_shown self.new) }
    {
        match read_frame(octets) {
            Ok(view) if view.kind == EAP_PACKET => self.hear(view.body, nonce, frame),
            Ok(_) => discarded(Discard::NotPacket),
            Err(cause) => discarded(Discard::Frame(cause)),
        }
    }

    /// Whether the port is authorized.
    pub fn authorized(&self) -> bool
        ensures { result ≡ self.now.authorized }
    {
        self.authorized
    }

    /// The state of the Supplicant PAE.
    pub fn state(&self) -> PaeState
        ensures { result ≡ self.now.state }
    {
        self.state
    }

    /// What the login reports, with its keys; None if it has no report.
    pub fn report(&self) -> Option<Report>
        ensures { result ≡ peer_reports (now_of M.peer_shown self.now.peer) }
    {
        self.peer.report()
    }

    /// The peer.
    pub fn peer(&self) -> &PeerMachine<M>
        ensures { result.now ≡ self.now.peer }
    {
        &self.peer
    }

    /// CONNECTING.
    fn connect(&mut self, frame: &mut EapolFrame) -> SupplicantStep
        ensures { table.connects (shows M.peer_shown self.old)
            ≡ answer (step_with result frame.new) (shows M.peer_shown self.new) }
    {
        if self.start_count < self.limits.max_start {
            self.start_count += 1;
        }
        self.state = PaeState::Connecting;
        self.timer = self.limits.start_period;
        write_frame(frame, EAPOL_START, &[]);
        sent()
    }

    /// DISCONNECTED, and on by this control.
    fn begin(&mut self, control: Control, frame: &mut EapolFrame) -> SupplicantStep
        ensures { table.begins control (shows M.peer_shown self.old)
            ≡ answer (step_with result frame.new) (shows M.peer_shown self.new) }
    {
        match control {
            Control::Auto => {
                self.authorized = false;
                self.start_count = 0;
                self.connect(frame)
            }
            Control::ForceAuthorized => {
                self.state = PaeState::ForceAuth;
                self.authorized = true;
                silent()
            }
            Control::ForceUnauthorized => {
                self.state = PaeState::ForceUnauth;
                self.authorized = false;
                write_frame(frame, EAPOL_LOGOFF, &[]);
                sent()
            }
        }
    }

    /// LOGOFF.
    fn leave(&mut self, frame: &mut EapolFrame) -> SupplicantStep
        ensures { table.leaves (shows M.peer_shown self.old)
            ≡ answer (step_with result frame.new) (shows M.peer_shown self.new) }
    {
        self.state = PaeState::Logoff;
        self.authorized = false;
        write_frame(frame, EAPOL_LOGOFF, &[]);
        sent()
    }

    /// Another control takes effect.
    fn change(&mut self, control: Control, frame: &mut EapolFrame) -> SupplicantStep
        ensures { table.changes control (shows M.peer_shown self.old)
            ≡ answer (step_with result frame.new) (shows M.peer_shown self.new) }
    {
        if is_control(control, self.control) {
            silent()
        } else {
            self.control = control;
            self.begin(control, frame)
        }
    }

    /// Whether the timer ends with this second; else it counts.
    fn timer_ends(&mut self) -> bool
        ensures ends { result ≡ nat_le self.old.timer 1 }
        ensures ended { result ≡ true → self.new ≡ self.old }
        ensures counted { result ≡ false
            → self.new ≡ record self.old { timer = self.old.timer - 1 } }
    {
        if self.timer <= 1 {
            true
        } else {
            self.timer -= 1;
            false
        }
    }

    /// startWhen has ended.
    fn stay_unanswered(&mut self, frame: &mut EapolFrame) -> SupplicantStep
        ensures { table.is_unanswered (shows M.peer_shown self.old)
            ≡ answer (step_with result frame.new) (shows M.peer_shown self.new) }
    {
        if self.start_count < self.limits.max_start {
            self.connect(frame)
        } else if self.limits.port_valid {
            self.open();
            silent()
        } else {
            self.hold();
            silent()
        }
    }

    /// AUTHENTICATED.
    fn open(&mut self)
        ensures { shows M.peer_shown self.new ≡ table.opens (shows M.peer_shown self.old) }
    {
        self.state = PaeState::Authenticated;
        self.authorized = true;
    }

    /// HELD.
    fn hold(&mut self)
        ensures { shows M.peer_shown self.new ≡ table.holds (shows M.peer_shown self.old) }
    {
        self.state = PaeState::Held;
        self.authorized = false;
        self.timer = self.limits.held_period;
    }

    /// An EAP packet has come.
    #[tactic(auto, unfolding(crate::specs::Table::packet_comes))]
    fn hear(&mut self, octets: &[u8], nonce: &Nonce, frame: &mut EapolFrame) -> SupplicantStep
        ensures { table.packet_comes octets.now nonce.now (shows M.peer_shown self.old)
            ≡ answer (step_with result frame.new) (shows M.peer_shown self.new) }
    {
        match self.state {
            PaeState::Authenticating => self.deliver(octets, false, frame),
            PaeState::Connecting | PaeState::Authenticated | PaeState::Held => {
                if self.peer.has_objects() && is_request(octets) {
                    self.restart(nonce);
                    self.deliver(octets, true, frame)
                } else {
                    discarded(Discard::NotRequest)
                }
            }
            _ => discarded(Discard::Unheard),
        }
    }

    /// RESTART: the peer begins a new login.
    #[tactic(auto, unfolding(peer_machine::specs::PeerTable::peer_restart), using(crate::proofs::Objects::still_complete))]
    fn restart(&mut self, nonce: &Nonce)
        requires objects { table.has_objects M.peer_shown self.old.peer ≡ true }
        ensures { shows M.peer_shown self.new
            ≡ table.restarted nonce.now (shows M.peer_shown self.old) }
    {
        self.peer.restart_step(nonce);
        self.state = PaeState::Authenticating;
        self.start_count = 0;
        self.timer = self.limits.auth_period;
    }

    /// The peer's step for an EAP packet, and what it comes to.
    fn deliver(&mut self, octets: &[u8], took: bool, frame: &mut EapolFrame) -> SupplicantStep
        ensures { table.hears took (shows M.peer_shown self.old)
            (peer_receives (now_of M.peer_shown self.old.peer) octets.now)
            ≡ answer (step_with result frame.new) (shows M.peer_shown self.new) }
    {
        let mut packet = Packet::new();
        let mut tags: Tags<NoRecords> = Tags::new();
        let step = self.peer.deliver_step(octets, &mut packet, &mut tags);
        if let Some(cause) = step.cause {
            return SupplicantStep {
                sends: false,
                took,
                cause: Some(Discard::Packet(cause)),
            };
        }
        if step.sends {
            write_frame(frame, EAP_PACKET, packet.as_slice());
            self.timer = self.limits.auth_period;
        } else {
            self.settle();
        }
        SupplicantStep {
            sends: step.sends,
            took,
            cause: None,
        }
    }

    /// The peer has sent nothing: if it has ended, the port opens or is held.
    fn settle(&mut self)
        ensures { shows M.peer_shown self.new ≡ table.settles (shows M.peer_shown self.old) }
    {
        if !self.peer.ended() {
            self.timer = self.limits.auth_period;
        } else if self.peer.state() == State::Success && self.peer.report().is_some() {
            self.open();
        } else {
            self.hold();
        }
    }
}

/// Whether both are one control.
fn is_control(control: Control, other: Control) -> bool
    ensures { result ≡ table.is_control control other }
{
    control == other
}

/// Whether the octets begin with a Request.
fn is_request(octets: &[u8]) -> bool
    ensures { result ≡ table.is_request (packet_of octets.now) }
{
    match decode(octets) {
        Ok(packet) => packet.code == Code::Request,
        Err(_) => false,
    }
}
