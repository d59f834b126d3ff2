//! Both ends of a login over events.

ghost use Rattle.std.specs.Prelude.{◌≡◌, ◌↔◌, ◌≤◌, ◌<◌, ◌+◌, ◌-◌, ◌^◌, ◌++◌, ℕ, List, true, false, map, length, IsTrue};
ghost use Rattle.std.specs.Prelude.{Bool, MatchResult, IfOk, IfSome, None, option_copied, vec_len, vec_capacity};
ghost use Rattle.octet_lists.specs.Sizes.{max_packet};
ghost use Rattle.login_setup.specs.Setup.{IsSoundPeer, IsSoundServer, HasKeys};
ghost use Rattle.login_setup.specs.declared.event.Event.TheVariants.{Restart};
ghost use Rattle.eap_method.specs.Tags as records;
ghost use Rattle.eap_method.specs.Steps.{step_with};
ghost use Rattle.eap_world.specs.World.{Called, Skipped, action_with, parties_of, sent_by, booked_by, counts_after, end_of, has_reported};
ghost use Rattle.eap_world.specs.World.{Parties, first_report, reported_before, held_by, reported_after, reported_with, report_of, role_in, told_of, result_with};
ghost use Rattle.eap_world.specs.Sent.{Sent};

use crate::act::{Action, Machines};
use crate::conversations::Conversations;
use crate::store::Store;
use crate::told::{Brief, Counts, Named, SentNumber, Skip, Told, sent_with};
use crate::verdict::{Verdict, judge_reports};
use eap_method::{Methods, PeerMethod, Report, ServerMethod, Step, Tags, TwoRecords};
use eap_packet::{Path, State};
use login_setup::{Event, Mode, Party, Port, Setup};
use octet_lists::Packet;
use pass_through::PassThrough;
use peer_machine::PeerMachine;
use server_machine::{Role, ServerMachine};
use std::alloc::Global;
use std::marker::Model;
use tag_book::{End, Entry, RecordOwner, TagsVerdict, book_tags, judge_tags, judge_tags_under};
use thiserror::Error;

/// Want of memory, the one error of `World::start` and `World::step`.
#[derive(Clone, Copy, PartialEq, Eq, Debug, Error)]
#[error("out of memory")]
pub struct Memory;

/// The most events of a run, the start not among them.
pub const MAX_EVENTS: u32 = 1_000_000;

/// The most tags that an event writes into the book.
const MAX_TAGS: usize = 4;

/// Which ends have had a report in their present conversations.
#[derive(Clone, Copy, PartialEq, Eq, Debug)]
pub struct HasReported {
    pub peer: bool,
    pub server: bool,
}

/// The peer (RFC 4137 section 4) and the server with their methods, the packets that were sent, the book of
/// the ends' tags, the counts, and the conversations that both ends have begun and the nonces that they have left for more. In
/// mode alone the server is the stand-alone one (section 5), in mode through the backend (section 6) with the pass-through
/// (section 7) before it. Contracts see all of it; what an object shows is its ghost member. No call changes which methods an
/// end's settings name, nor the view of an object whose method they don't name.
#[derive(Drop)]
pub struct World<P = Box<dyn PeerMethod>, S = Box<dyn ServerMethod>> {
    machines: Machines<P, S>,
    sent: Store,
    book: Vec<Entry>,
    counts: Counts,
    held: HasReported,
    /// The version of the scenario's text.
    version: u8,
    started: bool,
}

impl<P, S> Model for World<P, S> {
    ghost use Rattle.eap_world.specs.World.{WorldValue, IsInRange};

    ghost Value = { WorldValue P S };

    ghost view = { λ w. record {
      mode = w.machines.mode;
      peer = w.machines.peer;
      server = w.machines.server;
      pass = w.machines.pass;
      sent = w.sent.packets;
      stored = w.sent.stored;
      book = w.book.items;
      counts = w.counts;
      held = w.held;
      conversations = w.machines.conversations;
      version = w.version;
      started = w.started;
    } };

    ghost invariant = { λ w. IsInRange w.machines.mode w.machines.server.vars w.machines.pass w.sent.packets w.book.items w.counts w.started };
}

impl<P: PeerMethod, S: ServerMethod> World<P, S> {
    ghost use Rattle.eap_method.specs.Peer.{peer_kinds, have_each, key_for, peer_views};
    ghost use Rattle.eap_method.specs.Server.{server_kinds, server_views};
    ghost use Rattle.eap_world.specs.Run.{StartsRun, HasContinued};
    ghost use Rattle.tag_book.specs.Book.{tags_verdict, tags_verdict_either, under};
    ghost use Rattle.eap_world.specs.Judgement.{verdict_of};
    ghost use Rattle.eap_world.specs.World.{HasObjects, PreservesObjects, PreservesAllObjects, NamesAlike, IsResult, brief_of, packet_octets, initial_world, world_start, world_step, now_of};
    ghost use Rattle.eap_world.specs.World.{octets_numbered, octets_of_sent, pass_state, state_of};

    /// Whether [`World::new`] takes these settings with these objects.
    pub fn takes(setup: &Setup, methods: &Methods<P, S>) -> bool
        ensures { IsTrue result ↔ ((setup.now.max_retrans ≤ 10)
            × (IsSoundPeer setup.now.peer × HasKeys setup.now.peer
            × (have_each (peer_kinds (map P.peer_shown methods.now.peer.items)) setup.now.peer.methods ≡ true))
            × IsSoundServer setup.now.server × (have_each (server_kinds (map S.server_shown methods.now.server.items)) setup.now.server.methods ≡ true)) }
    {
        PeerMachine::takes(&setup.peer, methods.peer.as_slice())
            && ServerMachine::takes(&setup.server, setup.max_retrans, methods.server.as_slice())
    }

    /// The world of a setup, in which the peer has begun and the server, or the pass-through, hasn't started.
    /// Each method that an end allows or proposes has an object, which begins; the others stay as they were. It
    /// allocates no memory.
    #[tactic(auto, using(crate::proofs::StillThere::peer_created_with, crate::proofs::StillThere::server_created_with))]
    pub fn new(alloc: Global, setup: Setup, methods: Methods<P, S>) -> World<P, S>
        requires few { setup.max_retrans ≤ 10 }
        requires sound_peer { IsSoundPeer setup.peer }
        requires keys { HasKeys setup.peer }
        requires sound_server { IsSoundServer setup.server }
        requires peer_objects { have_each (peer_kinds (map P.peer_shown methods.peer.items)) setup.peer.methods ≡ true }
        requires server_objects { have_each (server_kinds (map S.server_shown methods.server.items)) setup.server.methods ≡ true }
        ensures initial { now_of P.peer_shown S.server_shown result ≡ initial_world setup
            (peer_views setup.peer.methods (map P.peer_shown methods.peer.items))
            (server_views setup.server.methods (map S.server_shown methods.server.items)) }
        ensures preserves { PreservesObjects P.peer_shown S.server_shown setup.peer.methods setup.server.methods
            methods.peer.items methods.server.items result.peer.methods result.server.methods }
        ensures objects { HasObjects P.peer_shown S.server_shown result }
    {
        let version = setup.later.version;
        let conversations = Conversations::new(setup.peer.nonce, setup.server.nonce, setup.later);
        World {
            machines: Machines {
                mode: setup.mode,
                peer: PeerMachine::new(setup.peer, methods.peer),
                pass: PassThrough::new(setup.first_id, setup.max_retrans),
                server: ServerMachine::in_role(
                    role_in(setup.mode),
                    setup.server,
                    setup.first_id,
                    setup.max_retrans,
                    methods.server,
                ),
                conversations,
                event: 0,
                packet: Packet::new(),
                tags: Tags::new(),
            },
            sent: Store::new(alloc),
            book: Vec::new(alloc),
            counts: Counts {
                events: 0,
                deliveries: 0,
                discards: 0,
            },
            held: HasReported {
                peer: false,
                server: false,
            },
            version,
            started: false,
        }
    }

    /// The server starts, or in mode through the pass-through, as event 0: it sends packet 1, the Identity
    /// Request. `Memory` comes only for
    /// want of memory for what it sends; the world then is as it was. The world has not started, and each method of an end's
    /// settings has an object, as [`World::new`] leaves it and each call keeps it. A world
    /// that has just been made then is that of the run without events. The crate `world_laws` says how few tags the
    /// book of a run has (`few_tags`).
    #[tactic(auto, using(crate::proofs::StillThere::still_there))]
    pub fn start_brief(&mut self) -> Result<Brief, Memory>
        requires unstarted { self.old.started ≡ false }
        requires objects { HasObjects P.peer_shown S.server_shown self.old }
        ensures reported { MatchResult result
            (λ told. IsResult P.peer_shown S.server_shown (world_start (now_of P.peer_shown S.server_shown self.old)) told self.new)
            (λ _. self.new ≡ self.old) }
        ensures run { IfOk result (λ told. StartsRun P.peer_shown S.server_shown self.old self.new) }
        ensures preserves { PreservesAllObjects P.peer_shown S.server_shown self.old self.new }
        ensures names { NamesAlike self.old self.new }
        ensures objects { HasObjects P.peer_shown S.server_shown self.new }
        ensures starts { IfOk result (λ _. self.new.started ≡ true) }
        ensures counts { IfOk result (λ _. self.new.counts ≡ self.old.counts) }
    {
        self.start_by_table()
    }

    /// The next event, numbered from 1. A delivery passes octets to the peer (RFC 4137 section 4), the server
    /// (sections 5 and 6) or the pass-through (section 7); a restart lets a party begin a new conversation, an end with the next of
    /// its nonces; an event that can't be carried out is skipped and only counted.
    /// `Memory` comes only for want of memory for one more packet and its tags; the world then is as it
    /// was, and the event isn't counted. The world has started, has had fewer events than [`MAX_EVENTS`], and each method of an
    /// end's settings has an object ([`World::has_objects`]). A world that was that of the run over some events then is that
    /// of the run over these and this one, whose book has at most four tags for each conversation that has begun
    /// (`few_tags` of the crate `world_laws`), each of whose steps is lawful (`steps_are_lawful`). So many events have
    /// sent at most one packet more.
    #[tactic(auto, using(crate::proofs::StillThere::still_there))]
    pub fn step_brief(&mut self, event: &Event) -> Result<Brief, Memory>
        requires started { self.old.started ≡ true }
        requires objects { HasObjects P.peer_shown S.server_shown self.old }
        requires capacity { self.old.counts.events < 1000000 }
        ensures reported { MatchResult result
            (λ told. IsResult P.peer_shown S.server_shown (world_step (now_of P.peer_shown S.server_shown self.old) event.now) told self.new)
            (λ _. self.new ≡ self.old) }
        ensures run { IfOk result (λ told. HasContinued P.peer_shown S.server_shown event.now self.old self.new) }
        ensures packets { length self.new.sent ≤ self.new.counts.events + 1 }
        ensures preserves { PreservesAllObjects P.peer_shown S.server_shown self.old self.new }
        ensures names { NamesAlike self.old self.new }
        ensures objects { HasObjects P.peer_shown S.server_shown self.new }
        ensures remains { IfOk result (λ _. self.new.started ≡ true) }
        ensures counted { IfOk result (λ _. self.new.counts.events ≡ self.old.counts.events + 1) }
    {
        self.step_by_table(event)
    }

    /// [`World::start_brief`], with the packet in its answer.
    pub fn start(&mut self) -> Result<Told, Memory>
        requires unstarted { self.old.started ≡ false }
        requires objects { HasObjects P.peer_shown S.server_shown self.old }
        ensures reported { MatchResult result
            (λ told. IsResult P.peer_shown S.server_shown (world_start (now_of P.peer_shown S.server_shown self.old)) (brief_of told) self.new)
            (λ _. self.new ≡ self.old) }
        ensures octets { IfOk result (λ told. packet_octets told.sent ≡ octets_of_sent self.new.sent (brief_of told).sent) }
        ensures run { IfOk result (λ told. StartsRun P.peer_shown S.server_shown self.old self.new) }
        ensures preserves { PreservesAllObjects P.peer_shown S.server_shown self.old self.new }
        ensures names { NamesAlike self.old self.new }
        ensures objects { HasObjects P.peer_shown S.server_shown self.new }
        ensures starts { IfOk result (λ _. self.new.started ≡ true) }
        ensures counts { IfOk result (λ _. self.new.counts ≡ self.old.counts) }
    {
        let brief = self.start_brief()?;
        Ok(self.whole(brief))
    }

    /// [`World::step_brief`], with the packet in its answer.
    pub fn step(&mut self, event: &Event) -> Result<Told, Memory>
        requires started { self.old.started ≡ true }
        requires objects { HasObjects P.peer_shown S.server_shown self.old }
        requires capacity { self.old.counts.events < 1000000 }
        ensures reported { MatchResult result
            (λ told. IsResult P.peer_shown S.server_shown (world_step (now_of P.peer_shown S.server_shown self.old) event.now) (brief_of told) self.new)
            (λ _. self.new ≡ self.old) }
        ensures octets { IfOk result (λ told. packet_octets told.sent ≡ octets_of_sent self.new.sent (brief_of told).sent) }
        ensures run { IfOk result (λ told. HasContinued P.peer_shown S.server_shown event.now self.old self.new) }
        ensures packets { length self.new.sent ≤ self.new.counts.events + 1 }
        ensures preserves { PreservesAllObjects P.peer_shown S.server_shown self.old self.new }
        ensures names { NamesAlike self.old self.new }
        ensures objects { HasObjects P.peer_shown S.server_shown self.new }
        ensures remains { IfOk result (λ _. self.new.started ≡ true) }
        ensures counted { IfOk result (λ _. self.new.counts.events ≡ self.old.counts.events + 1) }
    {
        let brief = self.step_brief(event)?;
        Ok(self.whole(brief))
    }

    /// The result of an event with the packet that was sent.
    fn whole(&self, brief: Brief) -> Told
        ensures brief { brief_of result ≡ brief }
        ensures octets { packet_octets result.sent ≡ octets_of_sent self.now.sent brief.sent }
    {
        let packet = Packet::of(self.octets_of(&brief));
        Told {
            event: brief.event,
            party: brief.party,
            path: brief.path,
            cause: brief.cause,
            skip: brief.skip,
            sent: sent_with(brief.sent, packet),
            named: brief.named,
        }
    }

    /// The start, as the world's table says.
    #[tactic(auto, unfolding(crate::specs::World::world_start))]
    fn start_by_table(&mut self) -> Result<Brief, Memory>
        requires { self.old.started ≡ false }
        ensures reported { MatchResult result
            (λ told. IsResult P.peer_shown S.server_shown (world_start (now_of P.peer_shown S.server_shown self.old)) told self.new)
            (λ _. self.new ≡ self.old) }
        ensures preserves { PreservesAllObjects P.peer_shown S.server_shown self.old self.new }
        ensures names { NamesAlike self.old self.new }
        ensures starts { IfOk result (λ _. self.new.started ≡ true) }
        ensures counts { IfOk result (λ _. self.new.counts ≡ self.old.counts) }
    {
        if !reserve_event(&mut self.sent, &mut self.book) {
            return Err(Memory);
        }
        let action = self.machines.start();
        self.started = true;
        Ok(store_result(
            &self.machines,
            &mut self.sent,
            &mut self.book,
            &mut self.held,
            0,
            action,
        ))
    }

    /// An event, as the world's table says.
    #[tactic(auto, unfolding(crate::specs::World::world_step))]
    fn step_by_table(&mut self, event: &Event) -> Result<Brief, Memory>
        requires started { self.old.started ≡ true }
        requires objects { HasObjects P.peer_shown S.server_shown self.old }
        requires capacity { self.old.counts.events < 1000000 }
        ensures reported { MatchResult result
            (λ told. IsResult P.peer_shown S.server_shown (world_step (now_of P.peer_shown S.server_shown self.old) event.now) told self.new)
            (λ _. self.new ≡ self.old) }
        ensures packets { length self.new.sent ≤ self.new.counts.events + 1 }
        ensures preserves { PreservesAllObjects P.peer_shown S.server_shown self.old self.new }
        ensures names { NamesAlike self.old self.new }
        ensures remains { IfOk result (λ _. self.new.started ≡ true) }
        ensures counted { IfOk result (λ _. self.new.counts.events ≡ self.old.counts.events + 1) }
    {
        if !reserve_event(&mut self.sent, &mut self.book) {
            return Err(Memory);
        }
        let number = self.counts.events + 1;
        self.held = reported_before(self.held, &self.machines.conversations, event);
        self.machines.event = number;
        let action = self.machines.act(&self.sent, event);
        self.counts = count(self.counts, &action);
        Ok(store_result(
            &self.machines,
            &mut self.sent,
            &mut self.book,
            &mut self.held,
            number,
            action,
        ))
    }

    /// True once the world has started.
    pub fn started(&self) -> bool
        ensures { result ≡ self.now.started }
    {
        self.started
    }

    /// Whether each method that an end's settings name has an object: the condition of [`World::start`] and [`World::step`]. It is
    /// so in each world that [`World::new`] made, and each call keeps it.
    pub fn has_objects(&self) -> bool
        ensures { IsTrue result ↔ HasObjects P.peer_shown S.server_shown self.now }
    {
        self.machines.peer.has_objects() && self.machines.server.has_objects()
    }

    /// The mode: the server answers by itself, or through the pass-through.
    pub fn mode(&self) -> Mode
        ensures { result ≡ self.now.mode }
    {
        self.machines.mode
    }

    /// The octets of the packet of this number, counted from 1 in the order of sending (RFC 3748 section
    /// 4); None if none was sent with it.
    pub fn packet(&self, number: u32) -> Option<&[u8]>
        ensures octets { option_copied result ≡ octets_numbered self.now.sent number }
        ensures bounded { IfSome result (λ octets. length octets.now ≤ max_packet) }
    {
        match self.sent.get(number) {
            None => None,
            Some(stored) => Some(stored.octets),
        }
    }

    /// The octets of the packet that was reported; no octets if none was sent, or not in this world.
    pub fn octets_of(&self, told: &Brief) -> &[u8]
        ensures octets { result.now ≡ octets_of_sent self.now.sent told.now.sent }
        ensures bounded { length result.now ≤ max_packet }
    {
        match told.sent {
            None => &[],
            Some(sent) => match self.packet(sent.number) {
                None => &[],
                Some(octets) => octets,
            },
        }
    }

    /// How many octets are stored for the packets that were sent: one whose octets are those of the last
    /// packet to the same port takes none.
    pub fn stored(&self) -> usize
        ensures { result ≡ self.now.stored }
    {
        self.sent.stored()
    }

    /// The state of a party (RFC 4137 sections 4.5, 5.5, 6.5 and 7.5); None exactly for the pass-through in
    /// mode alone, where it isn't there.
    pub fn state(&self, party: Party) -> Option<State>
        ensures { result ≡ state_of (now_of P.peer_shown S.server_shown self.now).parties party }
    {
        match party {
            Party::Peer => Some(self.peer_state()),
            Party::Pass => self.pass_state(),
            Party::Server => Some(self.server_state()),
        }
    }

    /// The state of the pass-through (RFC 4137 section 7.5); None in mode alone, where it isn't there.
    pub fn pass_state(&self) -> Option<State>
        ensures { result ≡ pass_state self.now.mode self.now.pass }
    {
        match self.machines.mode {
            Mode::Alone => None,
            Mode::Through => Some(self.machines.pass.state()),
        }
    }

    /// The state of the peer (RFC 4137 section 4.5).
    pub fn peer_state(&self) -> State
        ensures { result ≡ self.now.peer.vars.state }
    {
        self.machines.peer.state()
    }

    /// The state of the server (RFC 4137 sections 5.5 and 6.5).
    pub fn server_state(&self) -> State
        ensures { result ≡ self.now.server.vars.state }
    {
        self.machines.server.state()
    }

    /// How many events, deliveries and discards there were.
    pub fn counts(&self) -> Counts
        ensures { result ≡ self.now.counts }
    {
        self.counts
    }

    /// Whether each conversation that has begun did so with a fresh nonce: no conversation of either end had begun before with a nonce
    /// of the same first 16 octets, and these had not occurred, one after the other, in octets that were delivered to
    /// some party.
    pub fn fresh(&self) -> bool
        ensures { result ≡ self.now.conversations.fresh }
    {
        self.machines.conversations.fresh()
    }

    /// The version of the scenario's text, as the setup gives it.
    pub fn version(&self) -> u8
        ensures { result ≡ self.now.version }
    {
        self.version
    }

    /// Whether each accepted tag was made earlier by the other end, with the same method, label, key,
    /// octets and tag; else the first event in which an end accepted one that wasn't.
    pub fn tags(&self) -> TagsVerdict
        ensures { result ≡ tags_verdict self.now.book }
    {
        judge_tags(self.book.as_slice(), RecordOwner::Other)
    }

    /// Whether each accepted tag was made earlier by either end, with the same method, label, key, octets
    /// and tag: also by the end that accepted it, to which it came back. Else the first event in which an
    /// end accepted one that wasn't. It is Honest whenever [`World::tags`] is.
    pub fn tags_either(&self) -> TagsVerdict
        ensures { result ≡ tags_verdict_either self.now.book }
    {
        judge_tags(self.book.as_slice(), RecordOwner::Either)
    }

    /// [`World::tags`] of the tags under the peer's key for a method alone, whatever other users of the server do: what the laws of
    /// one user ask (`ends_agree_under_a_key` of the crate `login_laws`). It is Honest whenever [`World::tags`] is
    /// (`honest_under_a_key`).
    pub fn tags_under(&self, kind: u8) -> TagsVerdict
        ensures { result ≡ tags_verdict (under (key_for self.now.peer.vars.setup kind) self.now.book) }
    {
        let key: &[u8] = match self.machines.peer.setup().key(kind) {
            None => &[],
            Some(key) => key.as_slice(),
        };
        judge_tags_under(self.book.as_slice(), key, RecordOwner::Other)
    }

    /// Whether both ends agree in their present conversations. The crate `login_laws` says what this is in every run of a setup
    /// whose ends are sound, with a key of the peer for each of its methods and nonces of 32 octets: never Apart if
    /// [`World::tags`] is Honest and no end has begun a second conversation or [`World::fresh`] is true, nor, if no end
    /// has begun a second one, if [`World::tags_either`] is Honest (`honest_ends_agree`, which says too that each then
    /// has the nonce of the other's present conversation if tags are Honest and nonces fresh). If both ends agree under
    /// these premises, what they report is their own: the names of their setups, a user of the server with the peer's
    /// key, and by a method with suites the first of the server's that the peer allows (`honest_names_are_theirs`).
    /// Whatever it is, the conversations of the run, past and present, match as `conversations_match` says.
    /// Of a maker's methods `methods_agree` of the crate `world_laws` speaks.
    #[tactic(auto, unfolding(crate::specs::Judgement::verdict_of))]
    pub fn result(&self) -> Verdict
        ensures value { result ≡ verdict_of (now_of P.peer_shown S.server_shown self.now) }
    {
        if self.machines.peer.state() == State::Success
            && self.machines.server.state() == State::Success
        {
            let one = self.machines.peer.report();
            let other = self.machines.server.report();
            if judge_reports(
                self.machines.peer.setup(),
                self.machines.server.setup(),
                &one,
                &other,
            ) {
                Verdict::Agree
            } else {
                Verdict::Apart
            }
        } else {
            Verdict::Unfinished
        }
    }

    /// The objects of both ends' methods, with the views that they have.
    pub fn into_methods(self) -> Methods<P, S>
        ensures peer { result.peer.items ≡ self.peer.methods }
        ensures server { result.server.items ≡ self.server.methods }
    {
        Methods {
            peer: self.machines.peer.into_methods(),
            server: self.machines.server.into_methods(),
        }
    }
}

/// The server's role in a mode.
fn role_in(mode: Mode) -> Role
    ensures { result ≡ role_in mode }
{
    match mode {
        Mode::Alone => Role::StandAlone,
        Mode::Through => Role::Backend,
    }
}

/// Which ends have had a report in their present conversations, just before this event: an end that begins a new one
/// has none in it yet.
#[tactic(auto, using(crate::proofs::InConversation::still_reported))]
fn reported_before(held: HasReported, conversations: &Conversations, event: &Event) -> HasReported
    ensures { (parties : Parties) (sent : List Sent) → result ≡ reported_before held parties conversations.now sent event.now }
{
    match event {
        Event::Restart { party } => reported_anew(held, conversations, *party),
        _ => held,
    }
}

/// The same if a party is about to begin a new conversation. An end does so only if it has a nonce left.
#[tactic(auto, using(crate::proofs::InConversation::peer_anew, crate::proofs::InConversation::pass_anew, crate::proofs::InConversation::server_anew))]
fn reported_anew(held: HasReported, conversations: &Conversations, party: Party) -> HasReported
    ensures { (parties : Parties) (sent : List Sent) → result ≡ reported_before held parties conversations.now sent (Restart party) }
{
    match party {
        Party::Peer => {
            if conversations.has_peer_nonce() {
                HasReported {
                    peer: false,
                    ..held
                }
            } else {
                held
            }
        }
        Party::Pass => held,
        Party::Server => {
            if conversations.has_server_nonce() {
                HasReported {
                    server: false,
                    ..held
                }
            } else {
                held
            }
        }
    }
}

/// Makes room for one packet and four tags; false for want of memory, which comes only if room lacked.
fn reserve_event(sent: &mut Store, book: &mut Vec<Entry>) -> bool
    ensures sent { sent.new.packets ≡ sent.old.packets }
    ensures stored { sent.new.stored ≡ sent.old.stored }
    ensures book { book.new.items ≡ book.old.items }
    ensures sent_capacity { result ≡ true → (max_packet ≤ sent.new.octets_capacity) × (1 ≤ sent.new.packets_capacity) }
    ensures book_capacity { result ≡ true → vec_len book.new + 4 ≤ vec_capacity book.new }
    ensures book_len { vec_len book.new ≡ vec_len book.old }
    ensures lacked { max_packet ≤ sent.old.octets_capacity → 1 ≤ sent.old.packets_capacity → vec_len book.old + 4 ≤ vec_capacity book.old
        → result ≡ true }
{
    sent.reserve_packet() && book.reserve(MAX_TAGS).is_ok()
}

/// Stores what an action sends and what it writes into the book, for which there is room, and returns its result.
fn store_result<P: PeerMethod, S: ServerMethod>(
    machines: &Machines<P, S>,
    sent: &mut Store,
    book: &mut Vec<Entry>,
    held: &mut HasReported,
    event: u32,
    action: Action,
) -> Brief
    requires sent_capacity { (max_packet ≤ sent.old.octets_capacity) × (1 ≤ sent.old.packets_capacity) }
    requires book_capacity { vec_len book.old + 4 ≤ vec_capacity book.old }
    requires few { length sent.old.packets < 2 ^ 32 - 1 }
    ensures reported { result
        ≡ result_with P.peer_shown S.server_shown held.old machines.now event (length sent.old.packets + 1)
        (action_with action machines.now.packet machines.now.tags) }
    ensures sent { sent.new.packets ≡ sent.old.packets ++ sent_by (action_with action machines.now.packet machines.now.tags) }
    ensures book { book.new.items ≡ book.old.items ++ booked_by event (action_with action machines.now.packet machines.now.tags) }
    ensures reports { held.new ≡ reported_with P.peer_shown S.server_shown held.old machines.now (action_with action machines.now.packet machines.now.tags) }
    ensures few_sent { length sent.new.packets ≤ length sent.old.packets + 1 }
    ensures few_booked { vec_len book.new ≤ vec_len book.old + 4 }
{
    let number = next_number(sent.len());
    store_packet(sent, &action, &machines.packet);
    store_tags(book, event, &action, &machines.tags);
    let did = match action {
        Action::Skipped(skip) => return skip_result(event, skip),
        Action::Called(did) => did,
    };
    let mut told = tell(event, number, did.party, did.port, did.step);
    store_first_report(machines, did.party, held, &mut told.named);
    told
}

/// Returns the report that a party which acted has for the first time, and records that it was reported.
fn store_first_report<P: PeerMethod, S: ServerMethod>(
    machines: &Machines<P, S>,
    party: Party,
    held: &mut HasReported,
    named: &mut Option<Named>,
)
    requires { named.old ≡ None }
    ensures named { named.new
        ≡ first_report (has_reported held.old party) party (report_of (parties_of P.peer_shown S.server_shown machines.now) party) }
    ensures reports { held.new ≡ reported_after held.old named.new }
{
    if !has_reported(*held, party) {
        if let Some(report) = report_of(machines, party) {
            *held = with_party(*held, party);
            *named = Some(Named { party, report });
        }
    }
}

/// What a party reports; the pass-through reports nothing.
fn report_of<P: PeerMethod, S: ServerMethod>(
    machines: &Machines<P, S>,
    party: Party,
) -> Option<Report>
    ensures { result ≡ report_of (parties_of P.peer_shown S.server_shown machines.now) party }
{
    match party {
        Party::Peer => machines.peer.report(),
        Party::Pass => None,
        Party::Server => machines.server.report(),
    }
}

/// Whether a party has had a report.
fn has_reported(held: HasReported, party: Party) -> bool
    ensures { result ≡ has_reported held party }
{
    match party {
        Party::Peer => held.peer,
        Party::Pass => false,
        Party::Server => held.server,
    }
}

/// Which ends have had a report, this one among them.
fn with_party(held: HasReported, party: Party) -> HasReported
    ensures { result ≡ held_by held party }
{
    match party {
        Party::Peer => HasReported { peer: true, ..held },
        Party::Pass => held,
        Party::Server => HasReported {
            server: true,
            ..held
        },
    }
}

/// Writes the tags of an action into the book, for which there is room.
fn store_tags(book: &mut Vec<Entry>, event: u32, action: &Action, tags: &Tags<TwoRecords>)
    requires { vec_len book.old + 4 ≤ vec_capacity book.old }
    ensures stored { (packet : List ℕ) → book.new.items ≡ book.old.items ++ booked_by event (action_with action.now packet tags.now) }
    ensures few { vec_len book.new ≤ vec_len book.old + 4 }
{
    if let Action::Called(did) = action {
        if let Some(end) = end_of(did.party) {
            book_tags(book, event, end, tags);
        }
    }
}

/// The end that a party is; the pass-through makes and accepts no tag.
fn end_of(party: Party) -> Option<End>
    ensures { result ≡ end_of party }
{
    match party {
        Party::Peer => Some(End::Peer),
        Party::Pass => None,
        Party::Server => Some(End::Server),
    }
}

/// The number of the next packet.
fn next_number(sent: usize) -> u32
    requires { sent < 2 ^ 32 - 1 }
    ensures { result ≡ sent + 1 }
{
    sent as u32 + 1
}

/// Stores what an action sends, for which there is room.
fn store_packet(sent: &mut Store, action: &Action, packet: &Packet)
    requires capacity { (max_packet ≤ sent.old.octets_capacity) × (1 ≤ sent.old.packets_capacity) }
    ensures stored { (tags : records.Tags) → sent.new.packets ≡ sent.old.packets ++ sent_by (action_with action.now packet.now tags) }
    ensures few { length sent.new.packets ≤ length sent.old.packets + 1 }
{
    if let Action::Called(did) = action {
        if did.step.sends {
            sent.append(did.port, packet.as_slice());
        }
    }
}

/// The counts with one more event.
fn count(counts: Counts, action: &Action) -> Counts
    requires capacity { counts.events < 2 ^ 31 }
    requires deliveries { counts.deliveries ≤ counts.events }
    requires discards { counts.discards ≤ counts.events }
    ensures value { (packet : List ℕ) (tags : records.Tags) → result ≡ counts_after counts (action_with action.now packet tags) }
    ensures events { result.events ≡ counts.events + 1 }
    ensures few_deliveries { result.deliveries ≤ counts.deliveries + 1 }
    ensures few_discards { result.discards ≤ counts.discards + 1 }
{
    match action {
        Action::Skipped(_) => Counts {
            events: counts.events + 1,
            ..counts
        },
        Action::Called(did) => Counts {
            events: counts.events + 1,
            deliveries: counts.deliveries + u32::from(did.is_delivery),
            discards: counts.discards + u32::from(did.step.cause.is_some()),
        },
    }
}

/// The result of an event that was skipped.
fn skip_result(event: u32, skip: Skip) -> Brief
    ensures { result ≡ told_of event 0 None (Skipped skip) }
{
    Brief {
        event,
        party: None,
        path: Path::new(),
        cause: None,
        skip: Some(skip),
        sent: None,
        named: None,
    }
}

/// The result of a call, but for a report: the number of its event, and that of the packet that it sends.
fn tell(event: u32, number: u32, party: Party, port: Port, step: Step) -> Brief
    ensures reported { (is_delivery : Bool) (packet : List ℕ) (tags : records.Tags)
        → result ≡ told_of event number None
        (Called (record { party = party; is_delivery = is_delivery; port = port; step = step_with step packet tags })) }
    ensures unnamed { result.named ≡ None }
{
    Brief {
        event,
        party: Some(party),
        path: step.path,
        cause: step.cause,
        skip: None,
        sent: if step.sends {
            Some(SentNumber { number, port })
        } else {
            None
        },
        named: None,
    }
}
