//! What an event does to the machines: it is skipped, or is a call of one of them.

ghost use Rattle.std.specs.Prelude.{◌≡◌, ◌≤◌, ◌∷◌, [], ℕ, List, Some, None, IfSome, length, nat_le};
ghost use Rattle.std.specs.Prelude.{nat_lt, take, false};
ghost use Rattle.octet_lists.specs.Sizes.{max_packet};
ghost use Rattle.eap_method.specs.Steps.{is_end, step_with};
ghost use Rattle.pass_through.specs.PassTable as passes;
ghost use Rattle.server_machine.specs.ServerTable as servers;
ghost use Rattle.eap_method.specs.Tags as records;
ghost use Rattle.eap_world.specs.Store.{sent_of_slot};
ghost use Rattle.eap_world.specs.World.{Does, DoesCall, HaveObjects, IsServing, aaa_skips, act};
ghost use Rattle.eap_world.specs.World.{action_with, alteration, call_at, call_with, act_of_call};
ghost use Rattle.eap_world.specs.World.{conversed_by, did_at, did_by, first_skip, port_to};
ghost use Rattle.eap_world.specs.World.{is_absent, octets_of, packet_skips, parties_of};
ghost use Rattle.eap_world.specs.World.{pass_skips, lower_layer_call, restart_call, restart_skips};
ghost use Rattle.eap_world.specs.World.{role_in, start_call, timer_call, timer_skips, to_pass};
ghost use Rattle.eap_world.specs.World as worlds;
ghost use Rattle.pass_through.specs.Inputs.{aaa_timeout, aaa_noreq};
ghost use Rattle.login_setup.specs.declared.setup.Party.TheVariants.{Pass, Peer, Server};
ghost use Rattle.eap_world.specs.declared.told.Skip.TheVariants.{Ended};

use crate::conversations::Conversations;
use crate::store::{Store, Stored};
use crate::told::Skip;
use eap_method::{PeerMethod, ServerMethod, Step, Tags, TwoRecords};
use login_setup::{Event, Mode, Party, Port};
use octet_lists::Packet;
use pass_through::PassThrough;
use peer_machine::PeerMachine;
use server_machine::ServerMachine;

/// What a call of a party did. The packet that it sends and the records of its tags are in the machines.
#[derive(Drop)]
pub struct CallResult {
    pub party: Party,
    /// Whether octets were delivered to it.
    pub is_delivery: bool,
    /// Where what it sends goes.
    pub port: Port,
    pub step: Step,
}

/// The result of an event.
#[derive(Drop)]
pub enum Action {
    Skipped(Skip),
    Called(CallResult),
}

/// The machines of a run: the peer (RFC 4137 section 4), the server, stand-alone (section 5) or a backend
/// (section 6), and the pass-through before a backend (section 7), to which in mode alone nothing comes; with
/// them the conversations of both ends, and where a machine writes what it sends.
#[derive(Drop)]
pub struct Machines<P, S> {
    pub mode: Mode,
    pub peer: PeerMachine<P>,
    pub server: ServerMachine<S>,
    pub pass: PassThrough,
    pub conversations: Conversations,
    /// The number of the event that comes.
    pub event: u32,
    /// Where a machine writes the packet that it sends, before it is stored.
    pub packet: Packet,
    /// Where a machine writes the records of its tags, before they are booked.
    pub tags: Tags<TwoRecords>,
}

impl<P: PeerMethod, S: ServerMethod> Machines<P, S> {
    /// The start: the server asks for the identity, or the pass-through before it. Neither has started.
    pub(crate) fn start(&mut self) -> Action
        requires server { servers.is_started self.old.server.vars ≡ false }
        requires role { self.old.server.vars.role ≡ role_in self.old.mode }
        requires pass { passes.is_started self.old.pass.state ≡ false }
        ensures { Does P.peer_shown S.server_shown self.old result self.new
            (act_of_call (parties_of P.peer_shown S.server_shown self.old)
            (start_call self.old.mode)) self.old.conversations }
    {
        self.tags.clear();
        match self.mode {
            Mode::Alone => {
                let step = self.server.start_step(&mut self.packet);
                action_to(Party::Server, Port::Peer, false, step)
            }
            Mode::Through => {
                let step = self.pass.start_step(&mut self.packet);
                action_to(Party::Pass, Port::Peer, false, step)
            }
        }
    }

    /// Carries out this event, before which these packets were sent. What is sent and the records of tags are written in
    /// place of what was there. The conversations record what is delivered to a party, and an end that begins a new
    /// conversation does so with the next of its nonces. A skipped event changes no variable and no conversation. Each
    /// method of an end's settings has an object.
    #[tactic(auto, unfolding(crate::specs::World::act, crate::specs::World::conversed_by))]
    pub(crate) fn act(&mut self, sent: &Store, event: &Event) -> Action
        requires serving { IsServing self.old.mode self.old.server.vars }
        requires objects { HaveObjects P.peer_shown S.server_shown self.old.peer self.old.server }
        ensures { Does P.peer_shown S.server_shown self.old result self.new
            (act (parties_of P.peer_shown S.server_shown self.old)
            self.old.conversations sent.now.packets event.now)
            (conversed_by self.old.event (parties_of P.peer_shown S.server_shown self.old)
            self.old.conversations sent.now.packets event.now) }
    {
        match event {
            Event::Deliver { number } => self.deliver(sent.get(*number)),
            Event::Alter {
                number,
                place,
                mask,
            } => self.alter(sent.get(*number), *place, *mask),
            Event::Cut { number, keep } => self.cut(sent.get(*number), *keep),
            Event::Inject { port, octets } => {
                let octets = octets.as_slice();
                self.deliver(Some(Stored {
                    port: *port,
                    octets,
                }))
            }
            Event::Timeout { party } => self.end_timer(*party),
            Event::AaaTimeout => self.lose_server(),
            Event::AaaNoReq => self.ask_nothing(),
            Event::Idle | Event::AltAccept | Event::AltReject => self.report(event),
            Event::Restart { party } => self.restart(*party),
        }
    }

    /// A packet arrives at its port.
    fn deliver(&mut self, packet: Option<Stored>) -> Action
        requires serving { IsServing self.old.mode self.old.server.vars }
        ensures { DoesCall P.peer_shown S.server_shown self.old result self.new
            (first_skip (packet_skips self.old.mode (sent_of_slot packet.entry) false))
            (call_with (sent_of_slot packet.entry) (octets_of (sent_of_slot packet.entry))) }
    {
        self.deliver_part(packet, false, octets_of(packet))
    }

    /// A packet arrives at its port with its octet at `place` combined with `mask` by exclusive or.
    fn alter(&mut self, packet: Option<Stored>, place: u16, mask: u8) -> Action
        requires serving { IsServing self.old.mode self.old.server.vars }
        requires sizes { IfSome packet (λ s. length s.octets.now ≤ max_packet) }
        ensures { DoesCall P.peer_shown S.server_shown self.old result self.new
            (first_skip (packet_skips self.old.mode (sent_of_slot packet.entry)
            (nat_le (length (octets_of (sent_of_slot packet.entry))) place)))
            (call_with (sent_of_slot packet.entry)
            (alteration (octets_of (sent_of_slot packet.entry)) place mask)) }
    {
        let octets = octets_of(packet);
        let place = usize::from(place);
        let came = altered_copy(octets, place, mask);
        self.deliver_part(packet, octets.len() <= place, came.as_slice())
    }

    /// The first `keep` octets of a packet arrive at its port.
    fn cut(&mut self, packet: Option<Stored>, keep: u16) -> Action
        requires serving { IsServing self.old.mode self.old.server.vars }
        ensures { DoesCall P.peer_shown S.server_shown self.old result self.new
            (first_skip (packet_skips self.old.mode (sent_of_slot packet.entry)
            (nat_lt (length (octets_of (sent_of_slot packet.entry))) keep)))
            (call_with (sent_of_slot packet.entry)
            (take keep (octets_of (sent_of_slot packet.entry)))) }
    {
        let octets = octets_of(packet);
        let keep = usize::from(keep);
        self.deliver_part(packet, octets.len() < keep, front(octets, keep))
    }

    /// These octets of a packet arrive at its port, unless more of it are named than it has.
    fn deliver_part(&mut self, packet: Option<Stored>, is_misplaced: bool, octets: &[u8]) -> Action
        requires serving { IsServing self.old.mode self.old.server.vars }
        ensures { (came : List ℕ) → (is_misplaced ≡ false → octets.now ≡ came)
            → DoesCall P.peer_shown S.server_shown self.old result self.new
            (first_skip (packet_skips self.old.mode (sent_of_slot packet.entry) is_misplaced))
            (call_with (sent_of_slot packet.entry) came) }
    {
        match packet {
            None => Action::Skipped(Skip::Unsent),
            Some(packet) => {
                if is_absent(self.mode, packet.port) {
                    Action::Skipped(Skip::NoParty)
                } else if is_misplaced {
                    Action::Skipped(Skip::Place)
                } else {
                    self.deliver_octets(packet.port, octets)
                }
            }
        }
    }

    /// Octets arrive at a port, which a party has.
    fn deliver_octets(&mut self, port: Port, octets: &[u8]) -> Action
        requires serving { IsServing self.old.mode self.old.server.vars }
        ensures { DoesCall P.peer_shown S.server_shown self.old result self.new None
            (Some (call_at port octets.now)) }
    {
        self.conversations.receive(octets);
        self.tags.clear();
        match port {
            Port::Peer => {
                let step = self
                    .peer
                    .deliver_step(octets, &mut self.packet, &mut self.tags);
                action_of(self.mode, Party::Peer, true, step)
            }
            Port::Server => {
                let step = self
                    .server
                    .deliver_step(octets, &mut self.packet, &mut self.tags);
                action_of(self.mode, Party::Server, true, step)
            }
            Port::PassPeer => {
                let step = self.pass.from_peer_step(octets, &mut self.packet);
                action_to(Party::Pass, Port::Server, true, step)
            }
            Port::PassServer => {
                let step = self.pass.from_backend_step(octets, &mut self.packet);
                action_to(Party::Pass, Port::Peer, true, step)
            }
        }
    }

    /// The retransmission timer of a party ends: the stand-alone server's, or the pass-through's.
    fn end_timer(&mut self, party: Party) -> Action
        requires serving { IsServing self.old.mode self.old.server.vars }
        ensures { DoesCall P.peer_shown S.server_shown self.old result self.new
            (first_skip (timer_skips (parties_of P.peer_shown S.server_shown self.old) party))
            (Some (timer_call party)) }
    {
        match party {
            Party::Peer => Action::Skipped(if self.peer.ended() {
                Skip::Ended
            } else {
                Skip::NoTimer
            }),
            Party::Pass => self.end_pass_timer(),
            Party::Server => self.end_server_timer(),
        }
    }

    /// The server's retransmission timer ends; behind the pass-through it has none.
    #[tactic(auto, using(server_machine::proofs::Starting::timer_runs))]
    fn end_server_timer(&mut self) -> Action
        requires serving { IsServing self.old.mode self.old.server.vars }
        ensures { DoesCall P.peer_shown S.server_shown self.old result self.new
            (first_skip (timer_skips (parties_of P.peer_shown S.server_shown self.old) Server))
            (Some (timer_call Server)) }
    {
        if self.server.ended() {
            return Action::Skipped(Skip::Ended);
        }
        match self.mode {
            Mode::Through => Action::Skipped(Skip::NoTimer),
            Mode::Alone => {
                self.tags.clear();
                let step = self.server.timeout_step(&mut self.packet);
                action_to(Party::Server, Port::Peer, false, step)
            }
        }
    }

    /// The pass-through's retransmission timer ends, which runs in IDLE and IDLE2.
    fn end_pass_timer(&mut self) -> Action
        ensures { DoesCall P.peer_shown S.server_shown self.old result self.new
            (first_skip (timer_skips (parties_of P.peer_shown S.server_shown self.old) Pass))
            (Some (timer_call Pass)) }
    {
        match self.pass_skip(self.pass.wants_timer()) {
            Some(skip) => Action::Skipped(skip),
            None => {
                self.tags.clear();
                let step = self.pass.timeout_step(&mut self.packet);
                action_to(Party::Pass, Port::Peer, false, step)
            }
        }
    }

    /// No answer of the server behind the pass-through comes any more.
    fn lose_server(&mut self) -> Action
        ensures { DoesCall P.peer_shown S.server_shown self.old result self.new
            (first_skip (aaa_skips (parties_of P.peer_shown S.server_shown self.old)))
            (Some (to_pass aaa_timeout)) }
    {
        self.packet.clear();
        self.tags.clear();
        match self.pass_skip(self.pass.waits_for_server()) {
            Some(skip) => Action::Skipped(skip),
            None => action_to(Party::Pass, Port::Peer, false, self.pass.aaa_timeout_step()),
        }
    }

    /// The server behind the pass-through has nothing to ask.
    fn ask_nothing(&mut self) -> Action
        ensures { DoesCall P.peer_shown S.server_shown self.old result self.new
            (first_skip (aaa_skips (parties_of P.peer_shown S.server_shown self.old)))
            (Some (to_pass aaa_noreq)) }
    {
        self.packet.clear();
        self.tags.clear();
        match self.pass_skip(self.pass.waits_for_server()) {
            Some(skip) => Action::Skipped(skip),
            None => action_to(Party::Pass, Port::Peer, false, self.pass.aaa_noreq_step()),
        }
    }

    /// Why an event of the pass-through is skipped, if `is_placed` says that its state has a place for it.
    fn pass_skip(&self, is_placed: bool) -> Option<Skip>
        ensures { result ≡ first_skip (pass_skips self.now.mode self.now.pass.state is_placed) }
    {
        match self.mode {
            Mode::Alone => Some(Skip::NoParty),
            Mode::Through => {
                if self.pass.ended() {
                    Some(Skip::Ended)
                } else if is_placed {
                    None
                } else {
                    Some(Skip::NoTimer)
                }
            }
        }
    }

    /// The peer's lower layer is idle, or reports success or failure. Nothing is sent for it, and no tag made.
    fn report(&mut self, event: &Event) -> Action
        ensures { DoesCall P.peer_shown S.server_shown self.old result self.new
            (first_skip ((is_end self.old.peer.vars.state, Ended) ∷ []))
            (lower_layer_call event.now) }
    {
        self.packet.clear();
        self.tags.clear();
        if self.peer.ended() {
            return Action::Skipped(Skip::Ended);
        }
        match event {
            Event::Idle => action_of(self.mode, Party::Peer, false, self.peer.idle_step()),
            Event::AltAccept => action_of(
                self.mode,
                Party::Peer,
                false,
                self.peer.alt_accept_step(),
            ),
            Event::AltReject => action_of(
                self.mode,
                Party::Peer,
                false,
                self.peer.alt_reject_step(),
            ),
            _ => Action::Skipped(Skip::NoParty),
        }
    }

    /// A party begins a new conversation, in any state, also once it has ended. The peer sends nothing (RFC 4137
    /// section 4.5); the server alone asks for the identity again (section 5.5), behind the pass-through it waits (section 6.5);
    /// the pass-through asks again (section 7), and no conversation of an end begins by it. No octets are delivered by it.
    fn restart(&mut self, party: Party) -> Action
        requires objects { HaveObjects P.peer_shown S.server_shown self.old.peer self.old.server }
        ensures { DoesCall P.peer_shown S.server_shown self.old result self.new
            (first_skip (restart_skips (parties_of P.peer_shown S.server_shown self.old)
            self.old.conversations party))
            (restart_call self.old.conversations party) }
    {
        match party {
            Party::Peer => self.restart_peer(),
            Party::Pass => self.restart_pass(),
            Party::Server => self.restart_server(),
        }
    }

    /// The peer begins with the next of its nonces, if it has one.
    fn restart_peer(&mut self) -> Action
        requires objects { HaveObjects P.peer_shown S.server_shown self.old.peer self.old.server }
        ensures { DoesCall P.peer_shown S.server_shown self.old result self.new
            (first_skip (restart_skips (parties_of P.peer_shown S.server_shown self.old)
            self.old.conversations Peer))
            (restart_call self.old.conversations Peer) }
    {
        self.packet.clear();
        self.tags.clear();
        match self.conversations.start_peer(self.event) {
            None => Action::Skipped(Skip::NoNonce),
            Some(nonce) => {
                let step = self.peer.restart_step(&nonce);
                action_of(self.mode, Party::Peer, false, step)
            }
        }
    }

    /// The server begins with the next of its nonces, if it has one.
    fn restart_server(&mut self) -> Action
        requires objects { HaveObjects P.peer_shown S.server_shown self.old.peer self.old.server }
        ensures { DoesCall P.peer_shown S.server_shown self.old result self.new
            (first_skip (restart_skips (parties_of P.peer_shown S.server_shown self.old)
            self.old.conversations Server))
            (restart_call self.old.conversations Server) }
    {
        self.tags.clear();
        match self.conversations.start_server(self.event) {
            None => Action::Skipped(Skip::NoNonce),
            Some(nonce) => {
                let step = self.server.restart_step(&nonce, &mut self.packet);
                action_of(self.mode, Party::Server, false, step)
            }
        }
    }

    /// The pass-through restarts, if it is there.
    fn restart_pass(&mut self) -> Action
        ensures { DoesCall P.peer_shown S.server_shown self.old result self.new
            (first_skip (restart_skips (parties_of P.peer_shown S.server_shown self.old)
            self.old.conversations Pass))
            (restart_call self.old.conversations Pass) }
    {
        self.tags.clear();
        match self.mode {
            Mode::Alone => Action::Skipped(Skip::NoParty),
            Mode::Through => {
                let step = self.pass.restart_step(&mut self.packet);
                action_to(Party::Pass, Port::Peer, false, step)
            }
        }
    }
}

/// What a party's call did.
fn action_of(mode: Mode, party: Party, is_delivery: bool, step: Step) -> Action
    ensures { (packet : List ℕ) (tags : records.Tags)
        → action_with result packet tags
        ≡ worlds.Called (did_by mode party is_delivery (step_with step packet tags)) }
{
    action_to(party, port_to(party, mode), is_delivery, step)
}

/// What a call of a party did whose packet goes to this port.
fn action_to(party: Party, port: Port, is_delivery: bool, step: Step) -> Action
    ensures { (packet : List ℕ) (tags : records.Tags)
        → action_with result packet tags
        ≡ worlds.Called (did_at party port is_delivery (step_with step packet tags)) }
{
    Action::Called(CallResult {
        party,
        is_delivery,
        port,
        step,
    })
}

/// Where a party's packets go; the pass-through's own go to the peer.
fn port_to(party: Party, mode: Mode) -> Port
    ensures { result ≡ port_to party mode }
{
    match party {
        Party::Peer => match mode {
            Mode::Alone => Port::Server,
            Mode::Through => Port::PassPeer,
        },
        Party::Server => match mode {
            Mode::Alone => Port::Peer,
            Mode::Through => Port::PassServer,
        },
        Party::Pass => Port::Peer,
    }
}

/// Whether no party has this port: the pass-through authenticator (RFC 4137 section 7) is there in its
/// mode alone.
fn is_absent(mode: Mode, port: Port) -> bool
    ensures { result ≡ is_absent mode port }
{
    match mode {
        Mode::Through => false,
        Mode::Alone => match port {
            Port::Peer => false,
            Port::Server => false,
            Port::PassPeer => true,
            Port::PassServer => true,
        },
    }
}

/// The octets of a packet; none if it wasn't sent.
fn octets_of<'a>(packet: Option<Stored<'a>>) -> &'a [u8]
    ensures octets { result.now ≡ octets_of (sent_of_slot packet.entry) }
    ensures bounded { IfSome packet.entry (λ s. length s.octets.now ≤ max_packet)
        → length result.now ≤ max_packet }
{
    match packet {
        None => &[],
        Some(packet) => packet.octets,
    }
}

/// A copy whose octet at `place`, if there is one, is combined with `mask` by exclusive or.
fn altered_copy(octets: &[u8], place: usize, mask: u8) -> Packet
    requires { length octets.now ≤ max_packet }
    ensures { nat_le (length octets.now) place ≡ false → result ≡ alteration octets.now place mask }
{
    let mut copy = Packet::new();
    if place < octets.len() {
        copy.append(&octets[..place]);
        copy.push(octets[place] ^ mask);
        copy.append(&octets[place + 1..]);
    }
    copy
}

/// The first `keep` octets, or all if there are fewer.
fn front(octets: &[u8], keep: usize) -> &[u8]
    ensures { result.now ≡ take keep octets.now }
{
    &octets[..keep.min(octets.len())]
}
