//! The pass-through of RFC 4137 section 7.
//!
//! The table of RFC 4137 section 7: the start, and IDLE, are those of the server's Identity round; the identity leads
//! to RECEIVED, INTEGRITY_CHECK, METHOD_RESPONSE, SELECT_ACTION, INITIALIZE_PASSTHROUGH, AAA_REQUEST, AAA_IDLE and goes
//! to the server.
//!
//! - In AAA_IDLE, from the server:
//!   - a Request goes to the peer, and its Identifier becomes currentId: AAA_RESPONSE, SEND_REQUEST2, IDLE2
//!   - a Success or a Failure goes to the peer: SUCCESS2 or FAILURE2
//!   - other octets are discarded with an empty path
//!   - it has nothing to ask: DISCARD2, IDLE2
//!   - it is lost: TIMEOUT_FAILURE2
//! - In IDLE2, from the peer: a Response with currentId goes to the server by RECEIVED2, AAA_REQUEST, AAA_IDLE; other
//!   octets are discarded by RECEIVED2, DISCARD2, IDLE2.
//! - The timer in IDLE or IDLE2: as the server's, in IDLE2 with RETRANSMIT2, IDLE2 and TIMEOUT_FAILURE2.
//!
//! Octets from the side that isn't awaited are discarded as NotWaiting with an empty path, after the end as Ended. What
//! is forwarded are the packet's Length octets as they came.

ghost use Rattle.std.specs.Prelude.{◌≡◌, ◌≤◌, true, false, IfSome};
ghost use Rattle.pass_through.specs.PassTable.{Peer, Server, answer, step_to, without_padding};
ghost use Rattle.pass_through.specs.PassTable.{identity_request};

use crate::rows::{
    receive_in_aaa_idle, receive_in_idle, receive_in_idle2, resend, write_identity_request,
};
use crate::states::{is_aaa_idle, is_idle, is_idle2, is_over};
use crate::step::PassStep;
use crate::variables::PassVariables;
use eap_method::Step;
use eap_packet::{Cause, State};
use octet_lists::Packet;
use std::marker::Model;

/// The pass-through authenticator of RFC 4137 section 7. Contracts see its variables.
#[derive(Drop)]
pub struct PassThrough {
    vars: PassVariables,
}

impl Model for PassThrough {
    ghost use Rattle.pass_through.specs.PassTable.{AreInOrder};
    ghost use Rattle.pass_through.specs.declared.variables.PassVariables.{PassVariables};

    ghost Value = { PassVariables };

    ghost view = { λ p. p.vars };

    ghost invariant = { λ p. AreInOrder p.vars };
}

impl PassThrough {
    ghost use Rattle.std.specs.Prelude.{[]};
    ghost use Rattle.pass_through.specs.PassTable.{initial_pass, pass_start, pass_restart};
    ghost use Rattle.pass_through.specs.PassTable.{pass_from_peer, pass_from_backend, pass_timeout};
    ghost use Rattle.pass_through.specs.PassTable.{pass_aaa_timeout, pass_aaa_noreq};
    ghost use Rattle.pass_through.specs.PassTable.{is_started, has_timer, is_aaa_idle, is_over};
    ghost use Rattle.pass_through.specs.Plain.{plain_step};

    /// A pass-through that has not started. `max_retrans` is at most 10.
    pub fn new(first_id: u8, max_retrans: u8) -> PassThrough
        requires { max_retrans ≤ 10 }
        ensures { result ≡ initial_pass first_id max_retrans }
    {
        PassThrough {
            vars: PassVariables {
                first_id,
                max_retrans,
                state: State::Initialize,
                current_id: None,
                retrans_count: 0,
                last_request: Packet::new(),
            },
        }
    }

    /// INITIALIZE (RFC 4137 section 5.5): proposes Identity and writes its Request, with the first
    /// Identifier, into `packet`; it goes to the peer. The pass-through has not started.
    pub fn start_step(&mut self, packet: &mut Packet) -> Step
        requires { is_started self.old.state ≡ false }
        ensures step { pass_start self.old ≡ answer (step_to Peer result packet.new) self.new }
        ensures own { packet.new ≡ identity_request self.old.first_id }
    {
        self.initialize(packet)
    }

    /// Restarts, in any state: its variables are as INITIALIZE sets them, and it asks for the identity
    /// again, with the first Identifier. The Request is written into `packet`; it goes to the peer.
    #[tactic(auto, unfolding(crate::specs::PassTable::pass_restart, crate::specs::PassTable::pass_start))]
    pub fn restart_step(&mut self, packet: &mut Packet) -> Step
        ensures step { pass_restart self.old ≡ answer (step_to Peer result packet.new) self.new }
        ensures own { packet.new ≡ identity_request self.old.first_id }
    {
        self.initialize(packet)
    }

    /// INITIALIZE, and then the Identity Request.
    #[tactic(auto, unfolding(crate::specs::PassTable::pass_start))]
    fn initialize(&mut self, packet: &mut Packet) -> Step
        ensures step { pass_start self.old ≡ answer (step_to Peer result packet.new) self.new }
        ensures own { packet.new ≡ identity_request self.old.first_id }
    {
        write_identity_request(packet, self.vars.first_id);
        self.vars.state = State::Idle;
        self.vars.current_id = Some(self.vars.first_id);
        self.vars.retrans_count = 0;
        self.vars.last_request.set(packet.as_slice());
        let states = [
            State::Initialize,
            State::SelectAction,
            State::ProposeMethod,
            State::MethodRequest,
            State::SendRequest,
            State::Idle,
        ];
        Step::sending(&states)
    }

    /// Octets arrive from the peer. A Response that is awaited goes to the server, from `packet`,
    /// without what follows its Length. All else is silently discarded and changes nothing: in AAA_IDLE,
    /// where the server is waited for, and after the end with an empty path.
    #[tactic(auto, unfolding(crate::specs::PassTable::pass_from_peer))]
    pub fn from_peer_step(&mut self, octets: &[u8], packet: &mut Packet) -> Step
        ensures step { pass_from_peer self.old octets.now
            ≡ answer (step_to Server result packet.new) self.new }
        ensures whole { result.sends ≡ true → packet.new ≡ without_padding octets.now }
    {
        let state = self.vars.state;
        if is_over(state) {
            Step::discarding(&[], Cause::Ended)
        } else if is_idle(state) {
            receive_in_idle(&mut self.vars, octets, packet)
        } else if is_idle2(state) {
            receive_in_idle2(&mut self.vars, octets, packet)
        } else {
            Step::discarding(&[], Cause::NotWaiting)
        }
    }

    /// Octets arrive from the server. In AAA_IDLE a Request, a Success or a Failure goes to the peer,
    /// from `packet`, without what follows its Length. All else is silently discarded and changes
    /// nothing, with an empty path.
    #[tactic(auto, unfolding(crate::specs::PassTable::pass_from_backend))]
    pub fn from_backend_step(&mut self, octets: &[u8], packet: &mut Packet) -> Step
        ensures step { pass_from_backend self.old octets.now
            ≡ answer (step_to Peer result packet.new) self.new }
        ensures whole { result.sends ≡ true → packet.new ≡ without_padding octets.now }
    {
        let state = self.vars.state;
        if is_over(state) {
            Step::discarding(&[], Cause::Ended)
        } else if is_aaa_idle(state) {
            receive_in_aaa_idle(&mut self.vars, octets, packet)
        } else {
            Step::discarding(&[], Cause::NotWaiting)
        }
    }

    /// The retransmission timer ends: the last Request goes to the peer again, from `packet`, at most
    /// MaxRetrans times; then TIMEOUT_FAILURE or TIMEOUT_FAILURE2 follows. The state is IDLE or IDLE2.
    #[tactic(auto, unfolding(crate::specs::PassTable::pass_timeout))]
    pub fn timeout_step(&mut self, packet: &mut Packet) -> Step
        requires { has_timer self.old.state ≡ true }
        ensures step { pass_timeout self.old ≡ answer (step_to Peer result packet.new) self.new }
        ensures again { result.sends ≡ true → packet.new ≡ self.old.last_request }
    {
        if is_idle(self.vars.state) {
            resend(
                &mut self.vars,
                State::Retransmit,
                State::Idle,
                State::TimeoutFailure,
                packet,
            )
        } else {
            resend(
                &mut self.vars,
                State::Retransmit2,
                State::Idle2,
                State::TimeoutFailure2,
                packet,
            )
        }
    }

    /// No answer of the server comes any more (RFC 4137 section 7.1, aaaTimeout): TIMEOUT_FAILURE2. The
    /// state is AAA_IDLE.
    #[tactic(auto, unfolding(crate::specs::PassTable::pass_aaa_timeout))]
    pub fn aaa_timeout_step(&mut self) -> Step
        requires { is_aaa_idle self.old.state ≡ true }
        ensures { pass_aaa_timeout self.old ≡ answer (step_to Peer result []) self.new }
    {
        self.vars.state = State::TimeoutFailure2;
        Step::entering(&[State::TimeoutFailure2])
    }

    /// The server answers that it has nothing to ask (RFC 4137 section 7.1, aaaEapNoReq): DISCARD2. The
    /// state is AAA_IDLE.
    #[tactic(auto, unfolding(crate::specs::PassTable::pass_aaa_noreq))]
    pub fn aaa_noreq_step(&mut self) -> Step
        requires { is_aaa_idle self.old.state ≡ true }
        ensures { pass_aaa_noreq self.old ≡ answer (step_to Peer result []) self.new }
    {
        self.vars.state = State::Idle2;
        Step::entering(&[State::Discard2, State::Idle2])
    }

    /// [`start_step`](PassThrough::start_step), with the packet in its answer.
    pub fn start(&mut self) -> PassStep
        requires { is_started self.old.state ≡ false }
        ensures step { result ≡ plain_step (pass_start self.old).step }
        ensures after { self.new ≡ (pass_start self.old).after }
        ensures own { IfSome result.to_peer
            (λ packet. packet ≡ identity_request self.old.first_id) }
    {
        let mut packet = Packet::new();
        PassStep::to_peer(self.start_step(&mut packet), packet)
    }

    /// [`from_peer_step`](PassThrough::from_peer_step), with the packet in its answer.
    pub fn from_peer(&mut self, octets: &[u8]) -> PassStep
        ensures step { result ≡ plain_step (pass_from_peer self.old octets.now).step }
        ensures after { self.new ≡ (pass_from_peer self.old octets.now).after }
        ensures whole { IfSome result.to_server (λ packet. packet ≡ without_padding octets.now) }
    {
        let mut packet = Packet::new();
        PassStep::to_server(self.from_peer_step(octets, &mut packet), packet)
    }

    /// [`from_backend_step`](PassThrough::from_backend_step), with the packet in its answer.
    pub fn from_backend(&mut self, octets: &[u8]) -> PassStep
        ensures step { result ≡ plain_step (pass_from_backend self.old octets.now).step }
        ensures after { self.new ≡ (pass_from_backend self.old octets.now).after }
        ensures whole { IfSome result.to_peer (λ packet. packet ≡ without_padding octets.now) }
    {
        let mut packet = Packet::new();
        PassStep::to_peer(self.from_backend_step(octets, &mut packet), packet)
    }

    /// [`timeout_step`](PassThrough::timeout_step), with the packet in its answer.
    pub fn timeout(&mut self) -> PassStep
        requires { has_timer self.old.state ≡ true }
        ensures step { result ≡ plain_step (pass_timeout self.old).step }
        ensures after { self.new ≡ (pass_timeout self.old).after }
        ensures again { IfSome result.to_peer (λ packet. packet ≡ self.old.last_request) }
    {
        let mut packet = Packet::new();
        PassStep::to_peer(self.timeout_step(&mut packet), packet)
    }

    /// [`aaa_timeout_step`](PassThrough::aaa_timeout_step), with the packet in its answer.
    pub fn aaa_timeout(&mut self) -> PassStep
        requires { is_aaa_idle self.old.state ≡ true }
        ensures step { result ≡ plain_step (pass_aaa_timeout self.old).step }
        ensures after { self.new ≡ (pass_aaa_timeout self.old).after }
    {
        PassStep::to_peer(self.aaa_timeout_step(), Packet::new())
    }

    /// [`aaa_noreq_step`](PassThrough::aaa_noreq_step), with the packet in its answer.
    pub fn aaa_noreq(&mut self) -> PassStep
        requires { is_aaa_idle self.old.state ≡ true }
        ensures step { result ≡ plain_step (pass_aaa_noreq self.old).step }
        ensures after { self.new ≡ (pass_aaa_noreq self.old).after }
    {
        PassStep::to_peer(self.aaa_noreq_step(), Packet::new())
    }

    /// The pass-through's state.
    pub fn state(&self) -> State
        ensures { result ≡ self.now.state }
    {
        self.vars.state
    }

    /// True once it has started.
    pub fn started(&self) -> bool
        ensures { result ≡ is_started self.now.state }
    {
        !matches!(self.vars.state, State::Initialize)
    }

    /// True in IDLE and IDLE2, where the retransmission timer runs.
    pub fn wants_timer(&self) -> bool
        ensures { result ≡ has_timer self.now.state }
    {
        is_idle(self.vars.state) || is_idle2(self.vars.state)
    }

    /// True in AAA_IDLE, where the server is waited for.
    pub fn waits_for_server(&self) -> bool
        ensures { result ≡ is_aaa_idle self.now.state }
    {
        is_aaa_idle(self.vars.state)
    }

    /// True in SUCCESS2, FAILURE2, TIMEOUT_FAILURE and TIMEOUT_FAILURE2.
    pub fn ended(&self) -> bool
        ensures { result ≡ is_over self.now.state }
    {
        is_over(self.vars.state)
    }
}
