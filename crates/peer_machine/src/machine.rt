//! The peer of RFC 4137 section 4 over the objects of its methods.
//!
//! The table of RFC 4137 section 4, of which the first row that applies is taken, for a packet that decodes, in IDLE.
//! Each path begins with RECEIVED.
//!
//! - A Request whose Identifier is lastId: RETRANSMIT, SEND_RESPONSE, IDLE.
//! - A Request, if no method is selected:
//!   - of Type 1: IDENTITY, SEND_RESPONSE, IDLE
//!   - of Type 2: NOTIFICATION, SEND_RESPONSE, IDLE
//!   - of a Type that the policy allows: GET_METHOD, METHOD, and on as below
//!   - of another Type: GET_METHOD, SEND_RESPONSE, IDLE, with a Nak of the allowed Types or 0
//! - A Request of the selected method, methodState not DONE: METHOD, and on as below.
//! - A Success with lastId: SUCCESS if decision isn't FAIL, else FAILURE if methodState isn't CONT.
//! - A Failure with lastId, decision not UNCOND_SUCC, methodState not CONT: FAILURE.
//!
//! METHOD goes on to SEND_RESPONSE and IDLE with the method's Response, to FAILURE if the method is DONE and has
//! failed, or to DISCARD and IDLE if it discards. The lower layer: `idle` leads to SUCCESS if the decision is
//! UNCOND_SUCC, else to FAILURE. `alt-accept` leads to SUCCESS if the decision isn't FAIL, else to FAILURE if
//! methodState isn't CONT, else nowhere; `alt-reject` to FAILURE.
//!
//! If no row applies, a delivery is discarded with its cause by RECEIVED, DISCARD and IDLE; after the end as Ended with
//! an empty path.

ghost use Rattle.std.specs.Prelude.{◌≡◌, ◌≢◌, ◌≤◌, ◌↔◌, IsTrue, [], ◌∷◌, ◌++◌, length, slice_index};
ghost use Rattle.std.specs.Prelude.{true, false, map, None, Some, Ok, ℕ, List, option_map};
ghost use Rattle.octet_lists.specs.Among.{is_among, expanded_kind, ietf, nak_kind};
ghost use Rattle.login_setup.specs.Setup.{IsSoundPeer, HasKeys};
ghost use Rattle.eap_packet.specs.Packet.{spelled, value_of, IsPacket, max_type_data};
ghost use Rattle.eap_packet.specs.Fault.{packet_of};
ghost use Rattle.eap_packet.specs.Packet as packets;
ghost use Rattle.eap_packet.specs.declared.state.State.TheVariants.{Received, Method, Discard};
ghost use Rattle.eap_packet.specs.declared.state.State.TheVariants.{Idle, Failure, Retransmit};
ghost use Rattle.eap_packet.specs.declared.state.State.TheVariants.{SendResponse};
ghost use Rattle.eap_method.specs.PeerTurn.{peer_turn_with, peer_tags};
ghost use Rattle.eap_method.specs.Plain.{plain_octets};
ghost use Rattle.eap_method.specs.Capacity.{HasCapacity, replies};
ghost use Rattle.eap_method.specs.Steps.{step_with};
ghost use Rattle.eap_method.specs.Tags.{no_tags};
ghost use Rattle.eap_method.specs.Tags as records;
ghost use Rattle.eap_method.specs.Unnamed.{PreservesPeers};
ghost use Rattle.peer_machine.specs.Expanded.{express};
ghost use Rattle.peer_machine.specs.PeerTable.{Preserves, before_method, method_answers};
ghost use Rattle.peer_machine.specs.PeerTable.{views_after, answer, is_allowed, selected_shown};
ghost use Rattle.peer_machine.specs.PeerTable.{selected_view};
ghost use Rattle.eap_method.specs.Peer.{IsRequest, PeerShown, PeerViews, have_each, peer_views};
ghost use Rattle.eap_method.specs.Peer.{peer_turn, peer_kinds};

use crate::variables::PeerVariables;
use eap_method::{
    Decision, MethodState, PeerAnswer, PeerMethod, Report, Step, Tags, Turns, call_peer_method,
    find_peer, has_ended, has_peers, peer_report, start_peers,
};
use eap_packet::{
    Cause, Code, PacketView, State, decode, encode_into, init_into, is_bad_expanded, wrap_in_place,
    write_plain,
};
use login_policy::{expanded_nak, nak_list, peer_allows};
use login_setup::{PeerSetup, is_sound_peer};
use octet_lists::{EXPANDED, IDENTITY, IETF, NAK, NOTIFICATION, Nonce, Packet, VENDOR_SIZE};
use std::marker::Model;

/// The peer of RFC 4137 section 4: its variables, and the objects of its methods. Contracts see both;
/// what an object shows is its ghost member `peer_shown`. No call changes the settings but [`restart`](PeerMachine::restart)
/// their nonce, nor the view of an object whose method they don't name. If the settings say `expanded`, the peer
/// reads Expanded Types (RFC 3748 section 5.7), as [`deliver`](PeerMachine::deliver) says; else it handles Type 254
/// like any other Type.
#[derive(Drop)]
pub struct PeerMachine<M = Box<dyn PeerMethod>> {
    vars: PeerVariables,
    methods: Vec<M>,
}

impl<M> Model for PeerMachine<M> {
    ghost use Rattle.peer_machine.specs.PeerTable.{PeerValue, AreInOrder};

    ghost Value = { PeerValue M };

    ghost view = { λ m. record { vars = m.vars; methods = m.methods.items } };

    ghost invariant = { λ m. AreInOrder m.vars };
}

impl<M: PeerMethod> PeerMachine<M> {
    ghost use Rattle.eap_method.specs.Steps.{is_end};
    ghost use Rattle.peer_machine.specs.PeerTable.{now_of, setup_with_nonce, initial_peer};
    ghost use Rattle.peer_machine.specs.PeerTable.{peer_restart, peer_deliver, peer_idle};
    ghost use Rattle.peer_machine.specs.PeerTable.{peer_alt_accept, peer_alt_reject, peer_reports};
    ghost use Rattle.peer_machine.specs.PeerTable.{peer_row, peer_success, peer_failure};
    ghost use Rattle.peer_machine.specs.PeerTable.{new_request, peer_method, is_last_id};
    ghost use Rattle.peer_machine.specs.Expanded.{peer_receives, reads_request, expressed_unless};

    /// Whether [`new`](PeerMachine::new) takes these settings with these objects.
    pub fn takes(setup: &PeerSetup, methods: &[M]) -> bool
        ensures { IsTrue result ↔ (IsSoundPeer setup.now × HasKeys setup.now
            × (have_each (peer_kinds (map M.peer_shown methods.now)) setup.now.methods ≡ true)) }
    {
        is_sound_peer(setup) && has_peers(methods, setup.methods.as_slice())
    }

    /// INITIALIZE (RFC 4137 section 4.5): begins the objects of the methods that the setup allows; the peer is then in
    /// IDLE. Each of these methods has an object.
    pub fn new(setup: PeerSetup, methods: Vec<M>) -> PeerMachine<M>
        requires sound { IsSoundPeer setup }
        requires keys { HasKeys setup }
        requires objects { have_each (peer_kinds (map M.peer_shown methods.items)) setup.methods
            ≡ true }
        ensures initial { now_of M.peer_shown result
            ≡ initial_peer setup (peer_views setup.methods (map M.peer_shown methods.items)) }
        ensures preserves { PreservesPeers setup.methods (map M.peer_shown methods.items)
            (map M.peer_shown result.methods) }
    {
        let mut methods = methods;
        start_peers(methods.as_mut_slice(), &setup);
        PeerMachine {
            vars: PeerVariables {
                setup,
                state: State::Idle,
                selected: None,
                method_state: MethodState::NotSet,
                decision: Decision::Fail,
                last_id: None,
                last_response: Packet::new(),
            },
            methods,
        }
    }

    /// Begins a new conversation with this nonce, in any state: its variables and the objects of its methods are
    /// as INITIALIZE sets them (RFC 4137 section 4.5), and of the settings the nonce alone changes. Nothing is sent, and no
    /// tag is accepted or made. Each of its methods has an object.
    #[tactic(auto, unfolding(crate::specs::PeerTable::peer_restart), using(crate::proofs::Restarting::still_sound))]
    pub fn restart_step(&mut self, nonce: &Nonce) -> Step
        requires objects { have_each (peer_kinds
            (map M.peer_shown self.old.methods)) self.old.vars.setup.methods ≡ true }
        ensures step { peer_restart (now_of M.peer_shown self.old) nonce.now
            ≡ answer (step_with result [] no_tags) (now_of M.peer_shown self.new) }
        ensures preserves { PreservesPeers self.old.vars.setup.methods
            (map M.peer_shown self.old.methods) (map M.peer_shown self.new.methods) }
        ensures setup { self.new.vars.setup ≡ setup_with_nonce self.old.vars.setup nonce.now }
    {
        self.vars.setup.nonce = *nonce;
        start_peers(self.methods.as_mut_slice(), &self.vars.setup);
        self.vars.state = State::Idle;
        self.vars.selected = None;
        self.vars.method_state = MethodState::NotSet;
        self.vars.decision = Decision::Fail;
        self.vars.last_id = None;
        self.vars.last_response.clear();
        Step::entering(&[State::Initialize, State::Idle])
    }

    /// Octets arrive from the server. The packet that they begin with is handled from RECEIVED on (RFC 4137 section
    /// 4.5). Octets that begin with no packet are silently discarded, and so are all once the peer has ended. The
    /// packet that is sent is written into `packet`, the records of the turn's tags into `tags`, in place of what was
    /// there. A discard changes neither a variable nor a method's view, and leaves no record; a selection that
    /// GET_METHOD had just made is undone. Without a packet that is sent, `packet` is unspecified.
    ///
    /// If the settings say `expanded`, a Request of Type 254 is handled in its plain form, and what is
    /// sent of that is expressed in Type 254, and stored so for RETRANSMIT (RFC 3748 section 5.7): a Nak as
    /// the Expanded Nak of 12 octets and 8 for each method that the peer allows, at least 20 (section
    /// 5.3.2); any other Response, of at most 1,493 octets, wrapped, which adds 7. A repeated Request is
    /// answered in either form by what was sent last, unchanged. A Request of Type 254 that no party accepts is
    /// silently discarded for BadExpanded, unless the peer has ended: one with under 7 octets of
    /// Type-Data, or an Expanded Nak. What isn't a Request of Type 254 is handled as without `expanded`.
    #[tactic(auto, unfolding(crate::specs::Expanded::peer_receives))]
    pub fn deliver_step<R: Turns>(
        &mut self,
        octets: &[u8],
        packet: &mut Packet,
        tags: &mut Tags<R>,
    ) -> Step
        ensures step { peer_receives (now_of M.peer_shown self.old) octets.now
            ≡ answer (step_with result packet.new tags.new) (now_of M.peer_shown self.new) }
        ensures preserves { Preserves M.peer_shown self.old self.new }
    {
        tags.clear();
        if self.vars.setup.expanded {
            self.read(octets, packet, tags)
        } else {
            self.receive_octets(octets, packet, tags)
        }
    }

    /// The lower layer is idle (RFC 4137 section 4.1.1): SUCCESS if the decision is UNCOND_SUCC, else
    /// FAILURE. The peer has not ended.
    #[tactic(auto, unfolding(crate::specs::PeerTable::peer_idle))]
    pub fn idle_step(&mut self) -> Step
        requires { is_end self.old.vars.state ≡ false }
        ensures step { peer_idle (now_of M.peer_shown self.old)
            ≡ answer (step_with result [] no_tags) (now_of M.peer_shown self.new) }
        ensures preserves { Preserves M.peer_shown self.old self.new }
    {
        if self.vars.decision == Decision::UncondSucc {
            end(&mut self.vars, State::Success)
        } else {
            end(&mut self.vars, State::Failure)
        }
    }

    /// The lower layer reports success (RFC 4137 section 4.1.1): SUCCESS if the decision isn't FAIL; else FAILURE if
    /// methodState isn't CONT; else nothing. The peer has not ended.
    #[tactic(auto, unfolding(crate::specs::PeerTable::peer_alt_accept))]
    pub fn alt_accept_step(&mut self) -> Step
        requires { is_end self.old.vars.state ≡ false }
        ensures step { peer_alt_accept (now_of M.peer_shown self.old)
            ≡ answer (step_with result [] no_tags) (now_of M.peer_shown self.new) }
        ensures preserves { Preserves M.peer_shown self.old self.new }
    {
        if self.vars.decision != Decision::Fail {
            end(&mut self.vars, State::Success)
        } else if self.vars.method_state != MethodState::Cont {
            end(&mut self.vars, State::Failure)
        } else {
            Step::entering(&[])
        }
    }

    /// The lower layer reports failure (RFC 4137 section 4.1.1): FAILURE. The peer has not ended.
    #[tactic(auto, unfolding(crate::specs::PeerTable::peer_alt_reject))]
    pub fn alt_reject_step(&mut self) -> Step
        requires { is_end self.old.vars.state ≡ false }
        ensures step { peer_alt_reject (now_of M.peer_shown self.old)
            ≡ answer (step_with result [] no_tags) (now_of M.peer_shown self.new) }
        ensures preserves { Preserves M.peer_shown self.old self.new }
    {
        end(&mut self.vars, State::Failure)
    }

    /// The peer's settings.
    pub fn setup(&self) -> &PeerSetup
        ensures { result.now ≡ self.now.vars.setup }
    {
        &self.vars.setup
    }

    /// The peer's state: IDLE, SUCCESS or FAILURE.
    pub fn state(&self) -> State
        ensures { result ≡ self.now.vars.state }
    {
        self.vars.state
    }

    /// lastRespData (RFC 4137 section 4.3.1): the packet that the peer sent last since its begin or restart, of at most
    /// 1,500 octets; of none before the first.
    pub fn last_response(&self) -> &[u8]
        ensures { result.now ≡ self.now.vars.last_response }
    {
        self.vars.last_response.as_slice()
    }

    /// True in SUCCESS and in FAILURE.
    pub fn ended(&self) -> bool
        ensures { result ≡ is_end self.now.vars.state }
    {
        has_ended(self.vars.state)
    }

    /// What the selected method reports; None if none is selected or it has no report.
    pub fn report(&self) -> Option<Report>
        ensures { result ≡ peer_reports (now_of M.peer_shown self.now) }
    {
        peer_report(self.methods.as_slice(), self.vars.selected?)
    }

    /// The object of the selected method, the first of its Type, which shows the method's view. None if no method is
    /// selected, or there is no object of it.
    pub fn selected(&self) -> Option<&M>
        ensures shown { option_map (λ o. M.peer_shown o.now) result
            ≡ selected_shown self.now.vars.selected (map M.peer_shown self.now.methods) }
        ensures view { (shown : PeerShown) → option_map (λ o. M.peer_shown o.now) result
            ≡ Some shown
            → selected_view (now_of M.peer_shown self.now) ≡ Some shown }
    {
        match self.vars.selected {
            None => None,
            Some(kind) => find_peer(self.methods.as_slice(), kind),
        }
    }

    /// Whether each method that the settings allow has an object: the condition of [`restart`](PeerMachine::restart).
    pub fn has_objects(&self) -> bool
        ensures { result ≡ have_each (peer_kinds
            (map M.peer_shown self.now.methods)) self.now.vars.setup.methods }
    {
        has_peers(self.methods.as_slice(), self.vars.setup.methods.as_slice())
    }

    /// The objects, in the order in which they were given, with the views that they have.
    pub fn into_methods(self) -> Vec<M>
        ensures { result.items ≡ self.methods }
    {
        self.methods
    }

    /// A delivery to a peer that reads Expanded Types; `tags` has no record yet. It is never inlined, so
    /// that the packets of the functions below widen no frame of a peer that doesn't.
    #[inline(never)]
    #[tactic(auto, unfolding(crate::specs::Expanded::peer_receives))]
    fn read<R: Turns>(&mut self, octets: &[u8], packet: &mut Packet, tags: &mut Tags<R>) -> Step
        requires expanded { self.old.vars.setup.expanded ≡ true }
        requires tags { tags.old ≡ no_tags }
        ensures step { peer_receives (now_of M.peer_shown self.old) octets.now
            ≡ answer (step_with result packet.new tags.new) (now_of M.peer_shown self.new) }
        ensures preserves { Preserves M.peer_shown self.old self.new }
    {
        match decode(octets) {
            Ok(view) if view.code == Code::Request && !self.ended() => {
                self.read_request(&view, octets, packet, tags)
            }
            _ => self.receive_octets(octets, packet, tags),
        }
    }

    /// A Request that the octets begin with, to a peer that reads Expanded Types and has not ended;
    /// `tags` has no record yet.
    fn read_request<R: Turns>(
        &mut self,
        view: &PacketView,
        octets: &[u8],
        packet: &mut Packet,
        tags: &mut Tags<R>,
    ) -> Step
        requires request { view.now.code ≡ Code.Request }
        requires packet { packet_of octets.now ≡ Ok (value_of view.now) }
        requires size { length view.now.body.now ≤ max_type_data }
        requires tags { tags.old ≡ no_tags }
        ensures step { reads_request (now_of M.peer_shown self.old)
            octets.now view.now.id view.now.kind view.now.body.now
            ≡ answer (step_with result packet.new tags.new) (now_of M.peer_shown self.new) }
        ensures preserves { Preserves M.peer_shown self.old self.new }
    {
        if is_bad_expanded(view) {
            discard(Cause::BadExpanded)
        } else if view.kind == EXPANDED {
            self.receive_expanded(view, octets, packet, tags)
        } else {
            self.receive_octets(octets, packet, tags)
        }
    }

    /// A Request of Type 254 is handled in its plain form, and what is sent of that is expressed in Type 254,
    /// but for what RETRANSMIT sends. `tags` has no record yet.
    fn receive_expanded<R: Turns>(
        &mut self,
        view: &PacketView,
        octets: &[u8],
        packet: &mut Packet,
        tags: &mut Tags<R>,
    ) -> Step
        requires request { view.now.code ≡ Code.Request }
        requires packet { packet_of octets.now ≡ Ok (value_of view.now) }
        requires size { length view.now.body.now ≤ max_type_data }
        requires tags { tags.old ≡ no_tags }
        ensures step { expressed_unless (is_last_id self.old.vars.last_id view.now.id)
            (peer_deliver (now_of M.peer_shown self.old)
            (plain_octets octets.now (value_of view.now)))
            ≡ answer (step_with result packet.new tags.new) (now_of M.peer_shown self.new) }
        ensures preserves { Preserves M.peer_shown self.old self.new }
    {
        let is_last = self.vars.last_id == Some(view.id);
        let step = self.receive_plain(view, octets, packet, tags);
        if step.sends && !is_last {
            express(&mut self.vars, packet);
        }
        step
    }

    /// The packet that the octets begin with is handled in its plain form, by the table; `tags` has no
    /// record yet.
    #[tactic(auto, using(crate::proofs::Identifiers::second_is_id, crate::proofs::Identifiers::plain_second_is_id))]
    #[inline(never)]
    fn receive_plain<R: Turns>(
        &mut self,
        view: &PacketView,
        octets: &[u8],
        packet: &mut Packet,
        tags: &mut Tags<R>,
    ) -> Step
        requires packet { packet_of octets.now ≡ Ok (value_of view.now) }
        requires size { length view.now.body.now ≤ max_type_data }
        requires tags { tags.old ≡ no_tags }
        ensures step { peer_deliver (now_of M.peer_shown self.old)
            (plain_octets octets.now (value_of view.now))
            ≡ answer (step_with result packet.new tags.new) (now_of M.peer_shown self.new) }
        ensures preserves { Preserves M.peer_shown self.old self.new }
        ensures capacity { is_last_id self.old.vars.last_id view.now.id ≡ false
            → result.sends ≡ true → HasCapacity packet.new }
    {
        let mut plain = Packet::new();
        if write_plain(view, &mut plain) {
            self.receive_octets(plain.as_slice(), packet, tags)
        } else {
            self.receive_octets(octets, packet, tags)
        }
    }

    /// A delivery, by the table alone, which handles Type 254 like any other Type. What it sends has room
    /// for an Expanded Type, but for what RETRANSMIT sends. `tags` has no record yet.
    #[tactic(auto, unfolding(crate::specs::PeerTable::peer_deliver), using(crate::proofs::Identifiers::second_is_id))]
    fn receive_octets<R: Turns>(
        &mut self,
        octets: &[u8],
        packet: &mut Packet,
        tags: &mut Tags<R>,
    ) -> Step
        requires tags { tags.old ≡ no_tags }
        ensures step { peer_deliver (now_of M.peer_shown self.old) octets.now
            ≡ answer (step_with result packet.new tags.new) (now_of M.peer_shown self.new) }
        ensures preserves { Preserves M.peer_shown self.old self.new }
        ensures capacity { is_last_id self.old.vars.last_id (slice_index octets.now 1) ≡ false
            → result.sends ≡ true → HasCapacity packet.new }
    {
        if self.ended() {
            return Step::discarding(&[], Cause::Ended);
        }
        match decode(octets) {
            Err(cause) => discard(cause),
            Ok(view) => self.receive_packet(&view, packet, tags),
        }
    }

    /// RECEIVED, of a packet; `tags` has no record yet.
    #[tactic(auto, using(crate::proofs::Requests::is_request))]
    fn receive_packet<R: Turns>(
        &mut self,
        view: &PacketView,
        packet: &mut Packet,
        tags: &mut Tags<R>,
    ) -> Step
        requires packet { IsPacket (value_of view.now) }
        requires whole { view.now.whole.now ≡ spelled (value_of view.now) }
        requires tags { tags.old ≡ no_tags }
        ensures step { peer_row (now_of M.peer_shown self.old) (Ok (value_of view.now))
            ≡ answer (step_with result packet.new tags.new) (now_of M.peer_shown self.new) }
        ensures preserves { Preserves M.peer_shown self.old self.new }
        ensures capacity { is_last_id self.old.vars.last_id view.now.id ≡ false
            → result.sends ≡ true → HasCapacity packet.new }
    {
        let is_last = self.vars.last_id == Some(view.id);
        match view.code {
            Code::Response => discard(Cause::WrongRole),
            Code::Request => {
                if is_last {
                    retransmit(&self.vars, packet)
                } else {
                    self.new_request(view.id, view.kind, view.whole, packet, tags)
                }
            }
            Code::Success => {
                if is_last {
                    self.success()
                } else {
                    discard(Cause::IdMismatch)
                }
            }
            Code::Failure => {
                if is_last {
                    self.failure()
                } else {
                    discard(Cause::IdMismatch)
                }
            }
        }
    }

    /// A Success with lastId. Nothing is sent.
    fn success(&mut self) -> Step
        ensures step { (packet : List ℕ) → peer_success (now_of M.peer_shown self.old)
            ≡ answer (step_with result packet no_tags) (now_of M.peer_shown self.new) }
        ensures preserves { Preserves M.peer_shown self.old self.new }
    {
        if self.vars.decision != Decision::Fail {
            end_received(&mut self.vars, State::Success)
        } else if self.vars.method_state == MethodState::Cont {
            discard(Cause::EarlySuccess)
        } else {
            end_received(&mut self.vars, State::Failure)
        }
    }

    /// A Failure with lastId. Nothing is sent.
    fn failure(&mut self) -> Step
        ensures step { (packet : List ℕ) → peer_failure (now_of M.peer_shown self.old)
            ≡ answer (step_with result packet no_tags) (now_of M.peer_shown self.new) }
        ensures preserves { Preserves M.peer_shown self.old self.new }
    {
        if self.vars.decision == Decision::UncondSucc {
            discard(Cause::LateFailure)
        } else if self.vars.method_state == MethodState::Cont {
            discard(Cause::EarlyFailure)
        } else {
            end_received(&mut self.vars, State::Failure)
        }
    }

    /// A Request with another Identifier than lastId; `tags` has no record yet.
    fn new_request<R: Turns>(
        &mut self,
        id: u8,
        kind: u8,
        request: &[u8],
        packet: &mut Packet,
        tags: &mut Tags<R>,
    ) -> Step
        requires request { IsRequest kind request.now }
        requires tags { tags.old ≡ no_tags }
        ensures step { new_request (now_of M.peer_shown self.old)
            id kind request.now self.old.vars.selected
            ≡ answer (step_with result packet.new tags.new) (now_of M.peer_shown self.new) }
        ensures preserves { Preserves M.peer_shown self.old self.new }
        ensures capacity { result.sends ≡ true → HasCapacity packet.new }
    {
        match self.vars.selected {
            None => self.first_request(id, kind, request, packet, tags),
            Some(selected) => {
                if kind == NOTIFICATION {
                    discard(Cause::NotAllowed)
                } else if kind != selected {
                    discard(Cause::OtherMethod)
                } else if self.vars.method_state == MethodState::Done {
                    discard(Cause::MethodDone)
                } else {
                    self.method(false, kind, id, request, packet, tags)
                }
            }
        }
    }

    /// A Request while no method is selected: IDENTITY, NOTIFICATION or GET_METHOD. A method that the
    /// policy allows handles the Request; any other is answered by a Nak (RFC 3748 section 5.3.1). `tags`
    /// has no record yet.
    #[tactic(auto, using(login_policy::proofs::Choices::nak_lists_some))]
    fn first_request<R: Turns>(
        &mut self,
        id: u8,
        kind: u8,
        request: &[u8],
        packet: &mut Packet,
        tags: &mut Tags<R>,
    ) -> Step
        requires request { IsRequest kind request.now }
        requires tags { tags.old ≡ no_tags }
        ensures step { new_request (now_of M.peer_shown self.old) id kind request.now None
            ≡ answer (step_with result packet.new tags.new) (now_of M.peer_shown self.new) }
        ensures preserves { Preserves M.peer_shown self.old self.new }
        ensures capacity { result.sends ≡ true → HasCapacity packet.new }
    {
        if kind == IDENTITY {
            write_response(packet, id, IDENTITY, self.vars.setup.name.as_slice());
            respond(&mut self.vars, State::Identity, id, packet)
        } else if kind == NOTIFICATION {
            write_response(packet, id, NOTIFICATION, &[]);
            respond(&mut self.vars, State::Notification, id, packet)
        } else if peer_allows(&self.vars.setup, kind) {
            self.method(true, kind, id, request, packet, tags)
        } else {
            write_response(packet, id, NAK, nak_list(&self.vars.setup).as_slice());
            respond(&mut self.vars, State::GetMethod, id, packet)
        }
    }

    /// METHOD: the object of this Type, which the policy allows, handles the whole packet. Nothing is
    /// written into the variables before its turn is known to be a reply.
    #[tactic(auto, unfolding(crate::specs::PeerTable::peer_method))]
    fn method<R: Turns>(
        &mut self,
        selects: bool,
        kind: u8,
        id: u8,
        request: &[u8],
        packet: &mut Packet,
        tags: &mut Tags<R>,
    ) -> Step
        requires request { IsRequest kind request.now }
        requires allowed { is_among self.old.vars.setup.methods kind ≡ true }
        ensures step { peer_method selects (now_of M.peer_shown self.old) kind id request.now
            ≡ answer (step_with result packet.new tags.new) (now_of M.peer_shown self.new) }
        ensures preserves { Preserves M.peer_shown self.old self.new }
        ensures capacity { result.sends ≡ true → HasCapacity packet.new }
    {
        let turn = call_method(&mut self.methods, kind, request, packet, tags);
        settle(&mut self.vars, selects, kind, id, turn, packet)
    }
}

/// DISCARD: nothing changes.
fn discard(cause: Cause) -> Step
    ensures { result
        ≡ record { path = Received ∷ Discard ∷ Idle ∷ []; cause = Some cause; sends = false } }
{
    Step::discarding(&[State::Received, State::Discard, State::Idle], cause)
}

/// Writes a Response of this Type and Type-Data in place of what was there.
#[tactic(auto, using(eap_method::proofs::Capacities::response_has_capacity))]
fn write_response(packet: &mut Packet, id: u8, kind: u8, body: &[u8])
    requires bounded { length body.now ≤ 1488 }
    requires nak_desires { kind ≡ nak_kind → body.now ≢ [] }
    ensures response { packet.new ≡ spelled (packets.response id kind body.now) }
    ensures capacity { HasCapacity packet.new }
{
    encode_into(packet, Code::Response, id, kind, body);
}

/// A Response to a Request of Type 254, written in place of the plain one that is sent: the Expanded
/// Nak for a Nak (RFC 3748 section 5.3.2), any other wrapped (section 5.7). lastRespData is set to it.
#[inline(never)]
fn express(vars: &mut PeerVariables, packet: &mut Packet)
    requires { HasCapacity packet.old }
    ensures packet { packet.new ≡ express vars.old.setup.methods packet.old }
    ensures vars { vars.new ≡ record vars.old { last_response = packet.new } }
{
    let octets = packet.as_slice();
    let id = octets[1];
    if octets[4] == NAK {
        write_expanded_nak(packet, id, expanded_nak(&vars.setup).as_slice());
    } else {
        wrap_in_place(packet);
    }
    vars.last_response.set(packet.as_slice());
}

/// Writes the Expanded Nak with these entries in place of what was there (RFC 3748 section 5.3.2).
fn write_expanded_nak(packet: &mut Packet, id: u8, entries: &[u8])
    requires { length entries.now ≤ 16 }
    ensures { packet.new
        ≡ spelled (packets.response id expanded_kind (ietf ++ nak_kind ∷ entries.now)) }
{
    init_into(
        packet,
        Code::Response,
        id,
        EXPANDED,
        VENDOR_SIZE + entries.len(),
    );
    packet.put(&IETF);
    packet.put(&[NAK]);
    packet.put(entries);
}

/// SEND_RESPONSE, after the state `entered`: sets lastId and lastRespData.
#[inline(never)]
fn respond(vars: &mut PeerVariables, entered: State, id: u8, response: &Packet) -> Step
    ensures vars { vars.new ≡ record vars.old { last_id = Some id; last_response = response.now } }
    ensures step { result ≡ record {
      path = Received ∷ entered ∷ SendResponse ∷ Idle ∷ [];
      cause = None;
      sends = true;
    } }
{
    vars.last_id = Some(id);
    vars.last_response.set(response.as_slice());
    Step::sending(&[State::Received, entered, State::SendResponse, State::Idle])
}

/// RETRANSMIT: lastRespData is sent again, unchanged; no method is called.
fn retransmit(vars: &PeerVariables, packet: &mut Packet) -> Step
    ensures packet { packet.new ≡ vars.now.last_response }
    ensures step { result ≡ record {
      path = Received ∷ Retransmit ∷ SendResponse ∷ Idle ∷ [];
      cause = None;
      sends = true;
    } }
{
    packet.set(vars.last_response.as_slice());
    let states = [
        State::Received,
        State::Retransmit,
        State::SendResponse,
        State::Idle,
    ];
    Step::sending(&states)
}

/// The peer ends in this state, without a packet.
fn end(vars: &mut PeerVariables, state: State) -> Step
    ensures vars { vars.new ≡ record vars.old { state = state } }
    ensures step { result ≡ record { path = state ∷ []; cause = None; sends = false } }
{
    vars.state = state;
    Step::entering(&[state])
}

/// The peer ends in this state, after a packet.
fn end_received(vars: &mut PeerVariables, state: State) -> Step
    ensures vars { vars.new ≡ record vars.old { state = state } }
    ensures step { result ≡ record { path = Received ∷ state ∷ []; cause = None; sends = false } }
{
    vars.state = state;
    Step::entering(&[State::Received, state])
}

/// The turn of the object of this Type.
fn call_method<M: PeerMethod, R: Turns>(
    methods: &mut Vec<M>,
    kind: u8,
    request: &[u8],
    packet: &mut Packet,
    tags: &mut Tags<R>,
) -> PeerAnswer
    requires { IsRequest kind request.now }
    ensures turn { (allowed : List ℕ) → is_among allowed kind ≡ true
        → peer_turn kind (peer_views allowed (map M.peer_shown methods.old.items)) request.now
        ≡ record {
          turn = peer_turn_with result packet.new tags.new;
          after = peer_views allowed (map M.peer_shown methods.new.items);
        } }
    ensures tags { tags.new ≡ peer_tags (peer_turn_with result packet.new tags.new) }
    ensures preserves { (allowed : List ℕ) → is_among allowed kind ≡ true
        → PreservesPeers allowed (map M.peer_shown methods.old.items)
        (map M.peer_shown methods.new.items) }
    ensures capacity { replies result ≡ true → HasCapacity packet.new }
{
    call_peer_method(methods.as_mut_slice(), kind, request, packet, tags)
}

/// METHOD, of the turn of the method's object, whose Response is `packet`: a discard writes nothing.
fn settle(
    vars: &mut PeerVariables,
    selects: bool,
    kind: u8,
    id: u8,
    turn: PeerAnswer,
    packet: &Packet,
) -> Step
    ensures step { (before after : PeerViews) (tags : records.Tags)
        → let whole = peer_turn_with turn packet.now tags in
        method_answers selects (record { vars = vars.old; views = before }) kind id after whole
        ≡ answer (step_with result packet.now (peer_tags whole))
        (record { vars = vars.new; views = views_after before after whole }) }
    ensures setup { vars.new.setup ≡ vars.old.setup }
    ensures sends { result.sends ≡ true → replies turn ≡ true }
    ensures selected { is_allowed vars.old.setup.methods vars.old.selected ≡ true
        → is_among vars.old.setup.methods kind ≡ true
        → is_allowed vars.new.setup.methods vars.new.selected ≡ true }
{
    match turn {
        PeerAnswer::Discard(cause) => method_discards(selects, cause),
        PeerAnswer::Reply { state, decision } => {
            vars.selected = Some(kind);
            vars.method_state = state;
            vars.decision = decision;
            if state == MethodState::Done && decision == Decision::Fail {
                vars.state = State::Failure;
                method_fails(selects)
            } else {
                vars.last_id = Some(id);
                vars.last_response.set(packet.as_slice());
                method_replies(selects)
            }
        }
    }
}

/// The states before METHOD: GET_METHOD among them if it has just selected the method.
fn states_before(selects: bool) -> &'static [State]
    ensures states { result.now ≡ before_method selects }
    ensures few { length result.now ≤ 2 }
{
    if selects {
        &[State::Received, State::GetMethod]
    } else {
        &[State::Received]
    }
}

/// METHOD and DISCARD, after GET_METHOD if it has just selected the method.
fn method_discards(selects: bool, cause: Cause) -> Step
    ensures { result ≡ record {
      path = before_method selects ++ Method ∷ Discard ∷ Idle ∷ [];
      cause = Some cause;
      sends = false;
    } }
{
    let step = Step::discarding(&[State::Method, State::Discard, State::Idle], cause);
    step.after(states_before(selects))
}

/// METHOD and FAILURE, after GET_METHOD if it has just selected the method.
fn method_fails(selects: bool) -> Step
    ensures { result ≡ record {
      path = before_method selects ++ Method ∷ Failure ∷ [];
      cause = None;
      sends = false;
    } }
{
    Step::entering(&[State::Method, State::Failure]).after(states_before(selects))
}

/// METHOD and SEND_RESPONSE, after GET_METHOD if it has just selected the method.
fn method_replies(selects: bool) -> Step
    ensures { result ≡ record {
      path = before_method selects ++ Method ∷ SendResponse ∷ Idle ∷ [];
      cause = None;
      sends = true;
    } }
{
    let step = Step::sending(&[State::Method, State::SendResponse, State::Idle]);
    step.after(states_before(selects))
}
