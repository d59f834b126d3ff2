//! The server of RFC 4137 over the objects of its methods: stand-alone (section 5), or a backend (section
//! 6).
//!
//! The table of RFC 4137 section 5, of which the first row that applies is taken, for a packet that decodes, in IDLE.
//! Each path begins with RECEIVED, and the Identifier is currentId.
//!
//! - A Response of Type 3, methodState PROPOSED: NAK, SELECT_ACTION.
//! - A Response of Type 1, currentMethod Identity: INTEGRITY_CHECK, METHOD_RESPONSE, SELECT_ACTION.
//! - A Response of the Type of currentMethod: INTEGRITY_CHECK, then METHOD_RESPONSE, METHOD_REQUEST, SEND_REQUEST and
//!   IDLE with the method's next Request; or METHOD_RESPONSE, SELECT_ACTION and SUCCESS or FAILURE if the method is
//!   over; or DISCARD and IDLE if it discards.
//!
//! SELECT_ACTION after the Identity round or a Nak chooses the first method of the order that isn't yet proposed and
//! that the Nak, if any, desires. With one it goes on to PROPOSE_METHOD, METHOD_REQUEST, SEND_REQUEST and IDLE; with
//! none, to FAILURE. SUCCESS and FAILURE send a Success or a Failure with currentId. A timeout leads to RETRANSMIT and
//! IDLE with the Request again, at most MaxRetrans times, then to RETRANSMIT and TIMEOUT_FAILURE.
//!
//! If no row applies, a delivery is discarded with its cause by RECEIVED, DISCARD and IDLE; after the end as Ended with
//! an empty path.

ghost use Rattle.std.specs.Prelude.{◌≡◌, ◌≤◌, ◌↔◌, [], ◌∷◌, ◌++◌, true, false, map, length, Some};
ghost use Rattle.std.specs.Prelude.{None, Ok, option_copied, option_map, All, IsTrue};
ghost use Rattle.std.specs.Prelude.{if◌then◌else◌};
ghost use Rattle.octet_lists.specs.Among.{is_among};
ghost use Rattle.login_setup.specs.Setup.{IsSoundServer, are_suites, is_method_kind, has_valid_key};
ghost use Rattle.login_setup.specs.Users as users;
ghost use Rattle.eap_packet.specs.Packet.{spelled, value_of, IsPacket, max_type_data};
ghost use Rattle.eap_packet.specs.Packet as packets;
ghost use Rattle.eap_packet.specs.Fault.{packet_of};
ghost use Rattle.eap_packet.specs.declared.state.State.TheVariants.{Received, Discard, Idle};
ghost use Rattle.eap_method.specs.Peer.{have_each};
ghost use Rattle.eap_method.specs.Server.{IsResponse, server_views, server_kinds, server_offer};
ghost use Rattle.eap_method.specs.Server.{server_turn, side_of};
ghost use Rattle.eap_method.specs.ServerTurn.{server_turn_with, server_tags};
ghost use Rattle.eap_method.specs.Capacity.{HasCapacity, requests};
ghost use Rattle.eap_method.specs.Steps.{step_with};
ghost use Rattle.eap_method.specs.Tags.{no_tags};
ghost use Rattle.eap_method.specs.Unnamed.{PreservesServers};
ghost use Rattle.server_machine.specs.Expanded.{MayWrap, reads_response};
ghost use Rattle.server_machine.specs.ServerTable.{Preserves, answer, before_proposal};
ghost use Rattle.server_machine.specs.ServerTable.{identity_request, next_id, AreInOrder};

use crate::expanded::{awaits_first, wrap_sent, write_if_accepted};
use crate::outcome::{end_badly, next_id, settle, settle_offer};
use crate::variables::{Progress, ProposalPath, Role, ServerVariables};
use eap_method::{
    Report, ServerAnswer, ServerMethod, Step, Tags, Turns, call_server_method, find_server,
    has_ended, has_servers, offer_method, server_report, side_of, start_servers,
};
use eap_packet::{Cause, Code, PacketView, State, decode, encode_into, is_bad_expanded};
use login_policy::next_method;
use login_setup::{MAX_USERS, ServerSetup, User, UserList, is_sound_server};
use octet_lists::{IDENTITY, Kinds, NAK, Nonce, Packet};
use std::marker::Model;

/// The server of RFC 4137, stand-alone (section 5) or, for a world with a pass-through, in the role of the
/// backend (section 6): its variables, and the objects of its methods. Contracts see both; what an object
/// shows is its ghost member `server_shown`. No call changes the settings but [`restart`](ServerMachine::restart) and
/// [`make_again`](ServerMachine::make_again) their nonce, and [`set_users`](ServerMachine::set_users) and
/// [`add_user`](ServerMachine::add_user) their users, nor the view of an object whose method they don't name. If
/// the settings say `expanded`, it reads Expanded Types (RFC 3748 section 5.7) and asks in them.
/// [`Backend`](crate::Backend) is the backend by itself.
pub type ServerMachine<M = Box<dyn ServerMethod>> = SizedServer<M, MAX_USERS>;

/// A [`ServerMachine`] with room for `N` users, in place of 16.
#[derive(Drop)]
pub struct SizedServer<M, const N: usize> {
    methods: Vec<M>,
    vars: ServerVariables<UserList<N>>,
}

impl<M, const N: usize> Model for SizedServer<M, N> {
    ghost use Rattle.server_machine.specs.ServerTable.{ServerValue, AreInOrder};

    ghost Value = { ServerValue M };

    ghost view = { λ m. record { vars = m.vars; methods = m.methods.items } };

    ghost invariant = { λ m. AreInOrder m.vars };
}

impl<M: ServerMethod, const N: usize> SizedServer<M, N> {
    ghost use Rattle.eap_method.specs.Steps.{is_end};
    ghost use Rattle.server_machine.specs.ServerTable.{now_of, made_again, setup_with_nonce};
    ghost use Rattle.server_machine.specs.ServerTable.{initial_vars_of, initial_server};
    ghost use Rattle.server_machine.specs.ServerTable.{server_restart, server_start};
    ghost use Rattle.server_machine.specs.ServerTable.{server_deliver, server_timeout};
    ghost use Rattle.server_machine.specs.ServerTable.{server_reports, is_started, server_row};
    ghost use Rattle.server_machine.specs.ServerTable.{select_action, server_method};
    ghost use Rattle.server_machine.specs.ServerTable.{current_response};
    ghost use Rattle.server_machine.specs.ServerTable.{current_view, first_response, has_timer};
    ghost use Rattle.server_machine.specs.ServerTable.{is_backend, is_ready, pick_up, with_users};
    ghost use Rattle.server_machine.specs.Expanded.{server_receives, server_reads};
    ghost use Rattle.server_machine.specs.declared.variables.Role.TheVariants.{StandAlone};

    /// Whether [`new`](ServerMachine::new) takes these settings with these objects.
    pub fn takes(setup: &ServerSetup<UserList<N>>, max_retrans: u8, methods: &[M]) -> bool
        ensures { IsTrue result ↔ (IsSoundServer setup.now × (max_retrans ≤ 10)
            × (have_each (server_kinds (map M.server_shown methods.now)) setup.now.methods
            ≡ true)) }
    {
        is_sound_server(setup)
            && max_retrans <= 10
            && has_servers(methods, setup.methods.as_slice())
    }

    /// A stand-alone server that has not started: begins the objects of the methods that the setup
    /// proposes. Each of these methods has an object; `max_retrans` is at most 10.
    pub fn new(
        setup: ServerSetup<UserList<N>>,
        first_id: u8,
        max_retrans: u8,
        methods: Vec<M>,
    ) -> SizedServer<M, N>
        requires sound { IsSoundServer setup }
        requires few { max_retrans ≤ 10 }
        requires objects { have_each (server_kinds (map M.server_shown methods.items)) setup.methods
            ≡ true }
        ensures initial { now_of M.server_shown result
            ≡ initial_server StandAlone setup.entry (server_views setup.entry.methods
            (map M.server_shown methods.items)) first_id max_retrans }
        ensures preserves { PreservesServers setup.entry.methods (map M.server_shown methods.items)
            (map M.server_shown result.methods) }
    {
        SizedServer::in_role(Role::StandAlone, setup, first_id, max_retrans, methods)
    }

    /// A server in either role, before its start or, of a backend, its first Response: as
    /// [`ServerMachine::new`]. A backend uses neither `first_id` nor `max_retrans`.
    pub fn in_role(
        role: Role,
        setup: ServerSetup<UserList<N>>,
        first_id: u8,
        max_retrans: u8,
        methods: Vec<M>,
    ) -> SizedServer<M, N>
        requires sound { IsSoundServer setup }
        requires few { max_retrans ≤ 10 }
        requires objects { have_each (server_kinds (map M.server_shown methods.items)) setup.methods
            ≡ true }
        ensures initial { now_of M.server_shown result
            ≡ initial_server role setup.entry (server_views setup.entry.methods
            (map M.server_shown methods.items)) first_id max_retrans }
        ensures preserves { PreservesServers setup.entry.methods (map M.server_shown methods.items)
            (map M.server_shown result.methods) }
    {
        let mut methods = methods;
        start_servers(methods.as_mut_slice(), &setup);
        SizedServer::unbegun(role, setup, first_id, max_retrans, methods)
    }

    /// The variables of a server in either role as INITIALIZE sets them, over objects that have not begun: for a caller that
    /// begins them by [`ServerMachine::make_again`], where the server stays.
    #[inline(always)]
    pub fn unbegun(
        role: Role,
        setup: ServerSetup<UserList<N>>,
        first_id: u8,
        max_retrans: u8,
        methods: Vec<M>,
    ) -> SizedServer<M, N>
        requires sound { IsSoundServer setup }
        requires few { max_retrans ≤ 10 }
        ensures vars { result.vars ≡ initial_vars_of role setup.entry first_id max_retrans }
        ensures methods { result.methods ≡ methods.items }
    {
        SizedServer {
            vars: ServerVariables {
                role,
                setup,
                first_id,
                max_retrans,
                state: State::Initialize,
                current_id: None,
                current: None,
                progress: Progress::Continue,
                retrans_count: 0,
                last_request: Packet::new(),
                proposed: Kinds::new(),
            },
            methods,
        }
    }

    /// INITIALIZE (RFC 4137 section 5.5): proposes Identity and sends its Request, with the first
    /// Identifier, in `packet`. The server is a stand-alone one that has not started.
    #[tactic(auto, unfolding(crate::specs::ServerTable::server_start))]
    pub fn start_step(&mut self, packet: &mut Packet) -> Step
        requires unstarted { is_started self.old.vars ≡ false }
        requires stand_alone { is_backend self.old.vars ≡ false }
        ensures step { server_start (now_of M.server_shown self.old)
            ≡ answer (step_with result packet.new no_tags) (now_of M.server_shown self.new) }
        ensures preserves { Preserves M.server_shown self.old self.new }
    {
        write_identity(packet, self.vars.first_id);
        self.vars.state = State::Idle;
        self.vars.current_id = Some(self.vars.first_id);
        self.vars.current = Some(IDENTITY);
        self.vars.progress = Progress::Continue;
        self.vars.retrans_count = 0;
        self.vars.last_request.set(packet.as_slice());
        self.vars.proposed.clear();
        let states = [
            State::Initialize,
            State::SelectAction,
            State::ProposeMethod,
            State::MethodRequest,
            State::SendRequest,
            State::Idle,
        ];
        Step::sending(&states)
    }

    /// Begins a new conversation with this nonce, in any state: its variables and the objects of its
    /// methods are as INITIALIZE sets them, no tag is accepted or made, and of the settings the nonce alone changes. A
    /// stand-alone server then asks for the identity again, with the first Identifier, in `packet` (RFC 4137 section 5.5); a
    /// backend waits for its first Response and sends nothing (section 6.5). Each of its methods has an object.
    #[tactic(auto, unfolding(crate::specs::ServerTable::server_restart))]
    pub fn restart_step(&mut self, nonce: &Nonce, packet: &mut Packet) -> Step
        requires objects { have_each (server_kinds
            (map M.server_shown self.old.methods)) self.old.vars.setup.methods ≡ true }
        ensures step { server_restart (now_of M.server_shown self.old) nonce.now
            ≡ answer (step_with result packet.new no_tags) (now_of M.server_shown self.new) }
        ensures preserves { PreservesServers self.old.vars.setup.methods
            (map M.server_shown self.old.methods) (map M.server_shown self.new.methods) }
        ensures setup { self.new.vars.setup ≡ setup_with_nonce self.old.vars.setup nonce.now }
    {
        self.make_again(nonce);
        match self.vars.role {
            Role::Backend => Step::entering(&[State::Initialize]),
            Role::StandAlone => self.start_step(packet),
        }
    }

    /// Sets the variables and begins the objects as INITIALIZE does, with this nonce. Each of the methods has an object.
    #[tactic(auto, using(crate::proofs::Restarting::still_sound))]
    pub fn make_again(&mut self, nonce: &Nonce)
        requires objects { have_each (server_kinds
            (map M.server_shown self.old.methods)) self.old.vars.setup.methods ≡ true }
        ensures restarted { made_again (now_of M.server_shown self.old) nonce.now
            ≡ now_of M.server_shown self.new }
        ensures preserves { PreservesServers self.old.vars.setup.methods
            (map M.server_shown self.old.methods) (map M.server_shown self.new.methods) }
        ensures setup { self.new.vars.setup ≡ setup_with_nonce self.old.vars.setup nonce.now }
        ensures role { self.new.vars.role ≡ self.old.vars.role }
    {
        self.vars.setup.nonce = *nonce;
        start_servers(self.methods.as_mut_slice(), &self.vars.setup);
        self.vars.state = State::Initialize;
        self.vars.current_id = None;
        self.vars.current = None;
        self.vars.progress = Progress::Continue;
        self.vars.retrans_count = 0;
        self.vars.last_request.clear();
        self.vars.proposed.clear();
    }

    /// Octets arrive from the peer, at a server that is [ready](ServerMachine::ready). The packet that they begin with
    /// is handled from RECEIVED on (RFC 4137 section 5.5); the first Response to a backend goes to
    /// PICK_UP_METHOD or NAK (section 6.5). Octets that begin with no packet are silently discarded, and so are all
    /// once the server has ended. The packet that is sent is written into `packet`, the records of the turn's
    /// tags into `tags`, in place of what was there. A discard changes neither a variable nor a method's view,
    /// and leaves no record. Without a packet that is sent, `packet` is unspecified.
    ///
    /// If the settings say `expanded`, a Response may have an Expanded Type (RFC 3748 section 5.7). One of Type
    /// 254 with under 7 octets of Type-Data, and an Expanded Nak whose list isn't one or more entries of 8 octets
    /// that each begin with 254 (section 5.3.2), is silently discarded as BadExpanded; by a backend that awaits its
    /// first Response with an empty path. Any other is handled in its plain form, and an Expanded Nak as a Nak if it is
    /// a backend's first Response or answers a Request of Type 254. Each Request of a method is sent with Type 254,
    /// 7 octets longer, at most 1,500 in all, and again so by the timer; the Identity Request, a Success and a Failure
    /// are sent as they are.
    #[tactic(auto, unfolding(crate::specs::Expanded::server_receives))]
    pub fn deliver_step<R: Turns>(
        &mut self,
        octets: &[u8],
        packet: &mut Packet,
        tags: &mut Tags<R>,
    ) -> Step
        requires ready { is_ready self.old.vars ≡ true }
        ensures step { server_receives (now_of M.server_shown self.old) octets.now
            ≡ answer (step_with result packet.new tags.new) (now_of M.server_shown self.new) }
        ensures preserves { Preserves M.server_shown self.old self.new }
    {
        if self.vars.setup.expanded && !self.ended() {
            self.read(octets, packet, tags)
        } else {
            self.deliver_plain(octets, packet, tags)
        }
    }

    /// Octets arrive at a server that reads Expanded Types and has not ended. It isn't inlined, so that no other
    /// server has the octets of a plain form on its stack.
    #[inline(never)]
    fn read<R: Turns>(&mut self, octets: &[u8], packet: &mut Packet, tags: &mut Tags<R>) -> Step
        requires ready { is_ready self.old.vars ≡ true }
        ensures step { server_reads (now_of M.server_shown self.old) octets.now
            (packet_of octets.now)
            ≡ answer (step_with result packet.new tags.new) (now_of M.server_shown self.new) }
        ensures preserves { Preserves M.server_shown self.old self.new }
    {
        match decode(octets) {
            Err(_) => self.deliver_plain(octets, packet, tags),
            Ok(view) => match view.code {
                Code::Response => self.read_response(octets, &view, packet, tags),
                Code::Request | Code::Success | Code::Failure => {
                    self.deliver_plain(octets, packet, tags)
                }
            },
        }
    }

    /// These octets begin with a Response, which is handled in its plain form; a Request that is sent is wrapped.
    fn read_response<R: Turns>(
        &mut self,
        octets: &[u8],
        view: &PacketView,
        packet: &mut Packet,
        tags: &mut Tags<R>,
    ) -> Step
        requires ready { is_ready self.old.vars ≡ true }
        requires response { view.now.code ≡ Code.Response }
        requires bounded { length view.now.body.now ≤ max_type_data }
        ensures step { reads_response (now_of M.server_shown self.old)
            octets.now view.now.id view.now.kind view.now.body.now
            ≡ answer (step_with result packet.new tags.new) (now_of M.server_shown self.new) }
        ensures preserves { Preserves M.server_shown self.old self.new }
    {
        if is_bad_expanded(view) {
            tags.clear();
            if awaits_first(&self.vars) {
                Step::discarding(&[], Cause::BadExpanded)
            } else {
                discard(Cause::BadExpanded)
            }
        } else {
            let mut plain = Packet::new();
            let has_form = write_if_accepted(&self.vars, view, &mut plain);
            let taken = if has_form { plain.as_slice() } else { octets };
            let step = self.deliver_plain(taken, packet, tags);
            wrap_sent(&mut self.vars, step.sends, packet);
            step
        }
    }

    /// Octets arrive, and are handled by the transitions of RFC 4137 alone, which know of no Expanded Type. A Request
    /// that is sent has room for one.
    #[tactic(auto, unfolding(crate::specs::ServerTable::server_deliver))]
    fn deliver_plain<R: Turns>(
        &mut self,
        octets: &[u8],
        packet: &mut Packet,
        tags: &mut Tags<R>,
    ) -> Step
        requires ready { is_ready self.old.vars ≡ true }
        ensures step { server_deliver (now_of M.server_shown self.old) octets.now
            ≡ answer (step_with result packet.new tags.new) (now_of M.server_shown self.new) }
        ensures capacity { MayWrap result.sends packet.new }
        ensures preserves { Preserves M.server_shown self.old self.new }
    {
        tags.clear();
        if self.ended() {
            return Step::discarding(&[], Cause::Ended);
        }
        let is_first = awaits_first(&self.vars);
        match decode(octets) {
            Err(cause) => {
                if is_first {
                    Step::discarding(&[], cause)
                } else {
                    discard(cause)
                }
            }
            Ok(view) => {
                if is_first {
                    self.pick_up(&view, packet)
                } else {
                    self.receive_packet(&view, packet, tags)
                }
            }
        }
    }

    /// The retransmission timer ends (RFC 4137 section 5.5): the Request is sent again, in `packet`, at
    /// most MaxRetrans times; then TIMEOUT_FAILURE follows. The server
    /// [has the timer](ServerMachine::wants_timer) running.
    #[tactic(auto, using(crate::proofs::Starting::timer_is_running), unfolding(crate::specs::ServerTable::server_timeout))]
    pub fn timeout_step(&mut self, packet: &mut Packet) -> Step
        requires { has_timer self.old.vars ≡ true }
        ensures step { server_timeout (now_of M.server_shown self.old)
            ≡ answer (step_with result packet.new no_tags) (now_of M.server_shown self.new) }
        ensures preserves { Preserves M.server_shown self.old self.new }
    {
        self.vars.retrans_count += 1;
        if self.vars.retrans_count <= self.vars.max_retrans {
            packet.set(self.vars.last_request.as_slice());
            Step::sending(&[State::Retransmit, State::Idle])
        } else {
            self.vars.state = State::TimeoutFailure;
            Step::entering(&[State::Retransmit, State::TimeoutFailure])
        }
    }

    /// The server's settings.
    pub fn setup(&self) -> &ServerSetup<UserList<N>>
        ensures { result.now ≡ self.now.vars.setup }
    {
        &self.vars.setup
    }

    /// The server's state: INITIALIZE before the start, then IDLE, SUCCESS, FAILURE or
    /// TIMEOUT_FAILURE.
    pub fn state(&self) -> State
        ensures { result ≡ self.now.vars.state }
    {
        self.vars.state
    }

    /// True once the server has started.
    pub fn started(&self) -> bool
        ensures { result ≡ is_started self.now.vars }
    {
        !matches!(self.vars.state, State::Initialize)
    }

    /// True for the backend of RFC 4137 section 6, which begins with its first Response and sends nothing again.
    pub fn is_backend(&self) -> bool
        ensures { result ≡ is_backend self.now.vars }
    {
        matches!(self.vars.role, Role::Backend)
    }

    /// True if octets may come: at a backend from the first, else once the server has started.
    pub fn ready(&self) -> bool
        ensures { result ≡ is_ready self.now.vars }
    {
        self.is_backend() || self.started()
    }

    /// True if the retransmission timer may end: at a stand-alone server that has started and has not
    /// ended.
    pub fn wants_timer(&self) -> bool
        ensures { result ≡ has_timer self.now.vars }
    {
        !self.is_backend() && self.started() && !self.ended()
    }

    /// True in SUCCESS, FAILURE and TIMEOUT_FAILURE.
    pub fn ended(&self) -> bool
        ensures { result ≡ is_end self.now.vars.state }
    {
        has_ended(self.vars.state)
    }

    /// What the current method reports; None if none is current or it has no report.
    #[tactic(auto, using(crate::proofs::Settling::identity_reports))]
    pub fn report(&self) -> Option<Report>
        ensures { result ≡ server_reports (now_of M.server_shown self.now) }
    {
        let kind = self.vars.current?;
        if kind == IDENTITY {
            return None;
        }
        server_report(self.methods.as_slice(), kind)
    }

    /// The object of the current method, which shows its view; None before the first, in the Identity round, and if
    /// there is no object of it.
    #[tactic(auto, using(crate::proofs::Current::found_is_view))]
    pub fn current(&self) -> Option<&M>
        ensures { option_map (λ o. M.server_shown o.now) result
            ≡ current_view (now_of M.server_shown self.now) }
    {
        match self.vars.current {
            None => None,
            Some(kind) => find_server(self.methods.as_slice(), kind),
        }
    }

    /// The users that the server knows are these from now on, in any state; nothing else changes. Each is of a method
    /// (RFC 3748 section 5: Type 4 to 253, or 255), and has a key of the size that it requires.
    #[tactic(auto, using(crate::proofs::Restarting::sound_with_users))]
    pub fn set_users(&mut self, users: UserList<N>)
        requires kinds { All (λ user. IsTrue (is_method_kind user.kind)) users }
        requires keys { All (λ user. IsTrue (has_valid_key user)) users }
        ensures { self.new ≡ with_users self.old users.entry }
    {
        self.vars.setup.users = users;
    }

    /// The server knows this user too from now on, in any state; nothing else changes. There is room for the user, who is
    /// of a method, and has a key of the size that it requires.
    #[tactic(auto, using(crate::proofs::Restarting::sound_with_user))]
    pub fn add_user(&mut self, user: User)
        requires capacity { users.HasCapacity N self.old.vars.setup.users user }
        requires kind { is_method_kind user.kind ≡ true }
        requires key { has_valid_key user ≡ true }
        ensures { self.new ≡ with_users self.old (self.old.vars.setup.users ++ user ∷ []) }
    {
        self.vars.setup.users.add(user);
    }

    /// Whether each method that the settings name has an object: the condition of [`restart`](ServerMachine::restart).
    pub fn has_objects(&self) -> bool
        ensures { result ≡ have_each (server_kinds
            (map M.server_shown self.now.methods)) self.now.vars.setup.methods }
    {
        has_servers(self.methods.as_slice(), self.vars.setup.methods.as_slice())
    }

    /// The objects, in the order in which they were given, with the views that they have.
    pub fn into_methods(self) -> Vec<M>
        ensures { result.items ≡ self.methods }
    {
        self.methods
    }

    /// A packet arrives at a backend that waits for the first Response; all else is discarded with an empty
    /// path.
    fn pick_up(&mut self, view: &PacketView, packet: &mut Packet) -> Step
        requires running { is_end self.old.vars.state ≡ false }
        ensures step { pick_up (now_of M.server_shown self.old) (Ok (value_of view.now))
            ≡ answer (step_with result packet.new no_tags) (now_of M.server_shown self.new) }
        ensures capacity { MayWrap result.sends packet.new }
        ensures preserves { Preserves M.server_shown self.old self.new }
    {
        match view.code {
            Code::Response => self.pick_up_response(view.id, view.kind, view.body, packet),
            Code::Request | Code::Success | Code::Failure => {
                Step::discarding(&[], Cause::WrongRole)
            }
        }
    }

    /// The first Response sets currentId, and the first method is proposed, or the first that a Nak desires.
    fn pick_up_response(&mut self, id: u8, kind: u8, body: &[u8], packet: &mut Packet) -> Step
        requires running { is_end self.old.vars.state ≡ false }
        ensures step { first_response (now_of M.server_shown self.old) id kind body.now
            ≡ answer (step_with result packet.new no_tags) (now_of M.server_shown self.new) }
        ensures capacity { MayWrap result.sends packet.new }
        ensures preserves { Preserves M.server_shown self.old self.new }
    {
        self.vars.state = State::Idle;
        self.vars.current_id = Some(id);
        if kind == NAK {
            self.propose(ProposalPath::FirstNak, id, Some(body), packet)
        } else if kind == IDENTITY {
            self.vars.progress = Progress::End;
            self.propose(ProposalPath::FirstIdentity, id, None, packet)
        } else {
            self.propose(ProposalPath::FirstOther, id, None, packet)
        }
    }

    /// RECEIVED, of a packet; `tags` has no record yet.
    #[tactic(auto, using(crate::proofs::Responses::is_response))]
    fn receive_packet<R: Turns>(
        &mut self,
        view: &PacketView,
        packet: &mut Packet,
        tags: &mut Tags<R>,
    ) -> Step
        requires packet { IsPacket (value_of view.now) }
        requires whole { view.now.whole.now ≡ spelled (value_of view.now) }
        requires tags { tags.old ≡ no_tags }
        ensures step { server_row (now_of M.server_shown self.old) (Ok (value_of view.now))
            ≡ answer (step_with result packet.new tags.new) (now_of M.server_shown self.new) }
        ensures capacity { MayWrap result.sends packet.new }
        ensures preserves { Preserves M.server_shown self.old self.new }
    {
        match view.code {
            Code::Response => {
                if self.vars.current_id == Some(view.id) {
                    self.receive_current(view, packet, tags)
                } else {
                    discard(Cause::IdMismatch)
                }
            }
            Code::Request | Code::Success | Code::Failure => discard(Cause::WrongRole),
        }
    }

    /// A Response with currentId; `tags` has no record yet. With the identity the Identity round is over,
    /// and the first method is proposed.
    fn receive_current<R: Turns>(
        &mut self,
        view: &PacketView,
        packet: &mut Packet,
        tags: &mut Tags<R>,
    ) -> Step
        requires response { IsResponse view.now.kind view.now.whole.now }
        requires whole { view.now.whole.now
            ≡ spelled (packets.response view.now.id view.now.kind view.now.body.now) }
        requires tags { tags.old ≡ no_tags }
        ensures step { current_response (now_of M.server_shown self.old)
            view.now.id view.now.kind view.now.body.now
            ≡ answer (step_with result packet.new tags.new) (now_of M.server_shown self.new) }
        ensures capacity { MayWrap result.sends packet.new }
        ensures preserves { Preserves M.server_shown self.old self.new }
    {
        if view.kind == NAK && self.vars.progress == Progress::Proposed {
            self.propose(ProposalPath::AfterNak, view.id, Some(view.body), packet)
        } else if self.vars.current != Some(view.kind) {
            discard(Cause::WrongMethod)
        } else if view.kind == IDENTITY {
            self.vars.progress = Progress::End;
            self.propose(ProposalPath::AfterResponse, view.id, None, packet)
        } else {
            self.method(view.id, view.kind, view.whole, packet, tags)
        }
    }

    /// SELECT_ACTION if a method is to be proposed: the first of the order that isn't yet proposed and that the Nak, if
    /// one has come, desires; if there is none, or no object of it, FAILURE.
    #[tactic(auto, using(login_policy::proofs::Choices::next_is_ordered, login_policy::proofs::Choices::next_is_unproposed), unfolding(crate::specs::ServerTable::select_action))]
    fn propose(
        &mut self,
        way: ProposalPath,
        id: u8,
        desired: Option<&[u8]>,
        packet: &mut Packet,
    ) -> Step
        ensures step { let now = now_of M.server_shown self.old in
            select_action (before_proposal way) now.vars now.views id (option_copied desired.entry)
            ≡ answer (step_with result packet.new no_tags) (now_of M.server_shown self.new) }
        ensures capacity { MayWrap result.sends packet.new }
        ensures preserves { Preserves M.server_shown self.old self.new }
    {
        match next_method(&self.vars.setup.methods, &self.vars.proposed, desired) {
            None => end_badly(&mut self.vars, way, id, packet),
            Some(kind) => {
                let has_first = write_first(&mut self.methods, &self.vars, kind, packet);
                settle_offer(&mut self.vars, way, id, kind, has_first, packet)
            }
        }
    }

    /// INTEGRITY_CHECK: the object of the current method checks the whole packet. Nothing is written
    /// into the variables before its turn is known not to be a discard.
    fn method<R: Turns>(
        &mut self,
        id: u8,
        kind: u8,
        response: &[u8],
        packet: &mut Packet,
        tags: &mut Tags<R>,
    ) -> Step
        requires response { IsResponse kind response.now }
        requires ordered { is_among self.old.vars.setup.methods kind ≡ true }
        ensures step { server_method (now_of M.server_shown self.old) id kind response.now
            ≡ answer (step_with result packet.new tags.new) (now_of M.server_shown self.new) }
        ensures capacity { MayWrap result.sends packet.new }
        ensures preserves { Preserves M.server_shown self.old self.new }
    {
        let turn = turn_of(&mut self.methods, &self.vars, kind, response, packet, tags);
        settle(&mut self.vars, id, turn, packet)
    }
}

/// DISCARD: nothing changes.
fn discard(cause: Cause) -> Step
    ensures { result
        ≡ record { path = Received ∷ Discard ∷ Idle ∷ []; cause = Some cause; sends = false } }
{
    Step::discarding(&[State::Received, State::Discard, State::Idle], cause)
}

/// Writes the Identity Request in place of what was there.
fn write_identity(packet: &mut Packet, id: u8)
    ensures { packet.new ≡ identity_request id }
{
    encode_into(packet, Code::Request, id, IDENTITY, &[]);
}

/// The method of this Type begins and writes its first Request, with the next Identifier, into `packet`;
/// false without an object of it.
fn write_first<M: ServerMethod, const N: usize>(
    methods: &mut Vec<M>,
    vars: &ServerVariables<UserList<N>>,
    kind: u8,
    packet: &mut Packet,
) -> bool
    requires ordered { is_among vars.now.setup.methods kind ≡ true }
    requires suites { IsTrue (are_suites vars.now.setup.suites) }
    ensures offer { server_offer (side_of vars.now.setup) vars.now.setup.nonce kind
        (next_id vars.now)
        (server_views vars.now.setup.methods (map M.server_shown methods.old.items))
        ≡ record {
          packet = if result then Some packet.new else None;
          after = server_views vars.now.setup.methods (map M.server_shown methods.new.items);
        } }
    ensures capacity { result ≡ true → HasCapacity packet.new }
    ensures preserves { PreservesServers vars.now.setup.methods
        (map M.server_shown methods.old.items) (map M.server_shown methods.new.items) }
{
    offer_method(
        methods.as_mut_slice(),
        kind,
        &side_of(&vars.setup),
        &vars.setup.nonce,
        next_id(vars),
        packet,
    )
}

/// The turn of the object of this Type.
fn turn_of<M: ServerMethod, R: Turns, const N: usize>(
    methods: &mut Vec<M>,
    vars: &ServerVariables<UserList<N>>,
    kind: u8,
    response: &[u8],
    packet: &mut Packet,
    tags: &mut Tags<R>,
) -> ServerAnswer
    requires response { IsResponse kind response.now }
    requires ordered { is_among vars.now.setup.methods kind ≡ true }
    requires keys { All (λ user. IsTrue (has_valid_key user)) vars.now.setup.users }
    ensures turn { server_turn vars.now.setup.users (next_id vars.now) kind
        (server_views vars.now.setup.methods (map M.server_shown methods.old.items)) response.now
        ≡ record {
          turn = server_turn_with result packet.new tags.new;
          after = server_views vars.now.setup.methods (map M.server_shown methods.new.items);
        } }
    ensures tags { tags.new ≡ server_tags (server_turn_with result packet.new tags.new) }
    ensures capacity { requests result ≡ true → HasCapacity packet.new }
    ensures preserves { PreservesServers vars.now.setup.methods
        (map M.server_shown methods.old.items) (map M.server_shown methods.new.items) }
{
    call_server_method(
        methods.as_mut_slice(),
        kind,
        response,
        next_id(vars),
        vars.setup.users.as_slice(),
        packet,
        tags,
    )
}
