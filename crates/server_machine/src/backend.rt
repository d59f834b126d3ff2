//! The backend of RFC 4137 section 6 over the objects of its methods.
//!
//! The table of RFC 4137 section 6, of which the first row that applies is taken, in INITIALIZE; anything but a
//! Response is discarded with an empty path.
//!
//! - A Response of Type 3: NAK, SELECT_ACTION.
//! - A Response of Type 1: PICK_UP_METHOD, METHOD_RESPONSE, SELECT_ACTION.
//! - Another Response: PICK_UP_METHOD, SELECT_ACTION.
//!
//! That Response sets currentId, so the first Request has the next Identifier; a Failure, if nothing is left to
//! propose, has the Response's own. Afterwards the backend's rows are the server's. It has no Identity Request and no
//! timer.

ghost use Rattle.std.specs.Prelude.{◌≡◌, ◌↔◌, [], ◌∷◌, ◌++◌, map, true, option_map, All, IsTrue};
ghost use Rattle.login_setup.specs.Setup.{IsSoundServer, is_method_kind, has_valid_key};
ghost use Rattle.login_setup.specs.Users as users;
ghost use Rattle.eap_method.specs.Peer.{have_each};
ghost use Rattle.eap_method.specs.Server.{server_kinds, server_views};
ghost use Rattle.eap_method.specs.Steps.{is_end, step_with};
ghost use Rattle.eap_method.specs.Tags.{no_tags};
ghost use Rattle.eap_method.specs.Unnamed.{PreservesServers};
ghost use Rattle.server_machine.specs.ServerTable.{Preserves, answer, initial_backend};
ghost use Rattle.server_machine.specs.ServerTable.{current_view, made_again, now_of};
ghost use Rattle.server_machine.specs.ServerTable.{setup_with_nonce, server_reports};
ghost use Rattle.server_machine.specs.ServerTable.{server_restart, initial_vars_of, with_users};
ghost use Rattle.server_machine.specs.Expanded.{server_receives};
ghost use Rattle.server_machine.specs.declared.variables.Role.TheVariants as role;

use crate::machine::SizedServer;
use crate::variables::Role;
use eap_method::{Report, ServerMethod, Step, Tags, Turns};
use eap_packet::State;
use login_setup::{MAX_USERS, ServerSetup, User, UserList};
use octet_lists::{Nonce, Packet};
use std::marker::Model;

/// The backend authenticator of RFC 4137 section 6: a login server behind a pass-through, which asks for
/// the identity and sends again in its place. It begins with the first Response; from then on its transitions are those
/// of the stand-alone server. If its settings say `expanded`, it reads Expanded Types (RFC 3748 section
/// 5.7) and asks in them. Contracts see it as that machine.
pub type Backend<M = Box<dyn ServerMethod>> = SizedBackend<M, MAX_USERS>;

/// A [`Backend`] with room for `N` users, in place of 16.
#[derive(Drop)]
pub struct SizedBackend<M, const N: usize> {
    machine: SizedServer<M, N>,
}

impl<M, const N: usize> Model for SizedBackend<M, N> {
    ghost use Rattle.std.specs.Prelude.{◌≡◌};
    ghost use Rattle.server_machine.specs.ServerTable.{ServerValue};
    ghost use Rattle.server_machine.specs.declared.variables.Role.TheVariants.{Backend};

    ghost Value = { ServerValue M };

    ghost view = { λ b. b.machine };

    ghost invariant = { λ b. b.machine.vars.role ≡ Backend };
}

impl<M: ServerMethod, const N: usize> SizedBackend<M, N> {
    /// Whether [`new`](Backend::new) takes these settings with these objects.
    pub fn takes(setup: &ServerSetup<UserList<N>>, methods: &[M]) -> bool
        ensures { IsTrue result ↔ (IsSoundServer setup.now
            × (have_each (server_kinds (map M.server_shown methods.now)) setup.now.methods
            ≡ true)) }
    {
        SizedServer::takes(setup, 0, methods)
    }

    /// A backend that waits for its first Response: begins the objects of the methods that the setup
    /// proposes. Each of these methods has an object.
    pub fn new(setup: ServerSetup<UserList<N>>, methods: Vec<M>) -> SizedBackend<M, N>
        requires sound { IsSoundServer setup }
        requires objects { have_each (server_kinds (map M.server_shown methods.items)) setup.methods
            ≡ true }
        ensures initial { now_of M.server_shown result ≡ initial_backend setup.entry (server_views
            setup.entry.methods (map M.server_shown methods.items)) }
        ensures preserves { PreservesServers setup.entry.methods (map M.server_shown methods.items)
            (map M.server_shown result.methods) }
    {
        SizedBackend {
            machine: SizedServer::in_role(Role::Backend, setup, 0, 0, methods),
        }
    }

    /// The variables of a backend as INITIALIZE sets them, over objects that have not begun: for a caller that begins them by
    /// [`Backend::make_again`], where the backend stays.
    #[inline(always)]
    pub fn unbegun(setup: ServerSetup<UserList<N>>, methods: Vec<M>) -> SizedBackend<M, N>
        requires sound { IsSoundServer setup }
        ensures vars { result.vars ≡ initial_vars_of role.Backend setup.entry 0 0 }
        ensures methods { result.methods ≡ methods.items }
    {
        SizedBackend {
            machine: SizedServer::unbegun(Role::Backend, setup, 0, 0, methods),
        }
    }

    /// Octets arrive from the pass-through. The first Response goes to PICK_UP_METHOD or NAK (RFC 4137 section
    /// 6.5), and before it all else is silently discarded with an empty path; afterwards, and after the end, the
    /// transitions are those of [`ServerMachine::deliver`]. The packet that is sent is written into `packet`, the
    /// records of the turn's tags into `tags`, in place of what was there. A discard changes neither a variable nor a
    /// method's view, and leaves no record.
    ///
    /// If the settings say `expanded`, Expanded Types (RFC 3748 section 5.7) are read and sent as that call does;
    /// before the first Response a BadExpanded too has an empty path, and an Expanded Nak may be the first.
    #[tactic(auto, using(crate::proofs::Starting::backend_is_ready))]
    pub fn deliver_step<R: Turns>(
        &mut self,
        octets: &[u8],
        packet: &mut Packet,
        tags: &mut Tags<R>,
    ) -> Step
        ensures step { server_receives (now_of M.server_shown self.old) octets.now
            ≡ answer (step_with result packet.new tags.new) (now_of M.server_shown self.new) }
        ensures preserves { Preserves M.server_shown self.old self.new }
    {
        self.machine.deliver_step(octets, packet, tags)
    }

    /// Begins a new conversation with this nonce, in any state: its variables and the objects of its methods
    /// are as INITIALIZE sets them, no tag is accepted or made, and of the settings the nonce alone changes. It waits for its
    /// first Response and sends nothing (RFC 4137 section 6.5). Each of its methods has an object.
    #[tactic(auto, unfolding(crate::specs::ServerTable::server_restart))]
    pub fn restart_step(&mut self, nonce: &Nonce) -> Step
        requires objects { have_each (server_kinds
            (map M.server_shown self.old.methods)) self.old.vars.setup.methods ≡ true }
        ensures step { server_restart (now_of M.server_shown self.old) nonce.now
            ≡ answer (step_with result [] no_tags) (now_of M.server_shown self.new) }
        ensures preserves { PreservesServers self.old.vars.setup.methods
            (map M.server_shown self.old.methods) (map M.server_shown self.new.methods) }
        ensures setup { self.new.vars.setup ≡ setup_with_nonce self.old.vars.setup nonce.now }
    {
        self.machine.make_again(nonce);
        Step::entering(&[State::Initialize])
    }

    /// Sets the variables and begins the objects as INITIALIZE does, as [`ServerMachine::make_again`].
    pub fn make_again(&mut self, nonce: &Nonce)
        requires objects { have_each (server_kinds
            (map M.server_shown self.old.methods)) self.old.vars.setup.methods ≡ true }
        ensures restarted { made_again (now_of M.server_shown self.old) nonce.now
            ≡ now_of M.server_shown self.new }
        ensures preserves { PreservesServers self.old.vars.setup.methods
            (map M.server_shown self.old.methods) (map M.server_shown self.new.methods) }
        ensures setup { self.new.vars.setup ≡ setup_with_nonce self.old.vars.setup nonce.now }
    {
        self.machine.make_again(nonce)
    }

    /// The backend's settings.
    pub fn setup(&self) -> &ServerSetup<UserList<N>>
        ensures { result.now ≡ self.now.vars.setup }
    {
        self.machine.setup()
    }

    /// The backend's state: INITIALIZE before the first Response, then IDLE, SUCCESS or
    /// FAILURE.
    pub fn state(&self) -> State
        ensures { result ≡ self.now.vars.state }
    {
        self.machine.state()
    }

    /// True in SUCCESS and FAILURE.
    pub fn ended(&self) -> bool
        ensures { result ≡ is_end self.now.vars.state }
    {
        self.machine.ended()
    }

    /// What the current method reports; None if none is current or it has no report.
    pub fn report(&self) -> Option<Report>
        ensures { result ≡ server_reports (now_of M.server_shown self.now) }
    {
        self.machine.report()
    }

    /// The object of the current method, which shows its view; None before the first, and if there is no object of it.
    pub fn current(&self) -> Option<&M>
        ensures { option_map (λ o. M.server_shown o.now) result
            ≡ current_view (now_of M.server_shown self.now) }
    {
        self.machine.current()
    }

    /// The users that the backend knows are these from now on, in any state; nothing else changes. Each is of a method
    /// (RFC 3748 section 5: Type 4 to 253, or 255), and has a key of the size that it requires.
    pub fn set_users(&mut self, users: UserList<N>)
        requires kinds { All (λ user. IsTrue (is_method_kind user.kind)) users }
        requires keys { All (λ user. IsTrue (has_valid_key user)) users }
        ensures { self.new ≡ with_users self.old users.entry }
    {
        self.machine.set_users(users)
    }

    /// The backend knows this user too from now on, as [`ServerMachine::add_user`].
    pub fn add_user(&mut self, user: User)
        requires capacity { users.HasCapacity N self.old.vars.setup.users user }
        requires kind { is_method_kind user.kind ≡ true }
        requires key { has_valid_key user ≡ true }
        ensures { self.new ≡ with_users self.old (self.old.vars.setup.users ++ user ∷ []) }
    {
        self.machine.add_user(user)
    }

    /// Whether each method that the settings name has an object: the condition of [`restart`](Backend::restart).
    pub fn has_objects(&self) -> bool
        ensures { result ≡ have_each (server_kinds
            (map M.server_shown self.now.methods)) self.now.vars.setup.methods }
    {
        self.machine.has_objects()
    }

    /// The objects, in the order in which they were given, with the views that they have.
    pub fn into_methods(self) -> Vec<M>
        ensures { result.items ≡ self.methods }
    {
        self.machine.into_methods()
    }
}
