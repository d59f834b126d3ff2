//! The commands `replay` and `replay names`: a scenario is read line by line, and each event is run as it
//! comes.

ghost use Rattle.std.specs.Prelude.{◌≡◌, None, Some, Ok, IfOk, IsOk};
ghost use Rattle.scenario_text.specs.Reading.{setup_of};
ghost use Rattle.login_setup.specs.declared.setup.Setup.{Setup};
ghost use Rattle.command_driver.specs.Responding.{Responds};
ghost use Rattle.world_commands.specs.Replay.{HasBoth, IsReady, seen_of};
ghost use Rattle.world_commands.specs.Scenario.{asked_replay, trace_header};
ghost use Rattle.eap_world.specs.World.{octets_of_sent};
ghost use Rattle.trace_text.specs.Run.{told_text};
ghost use Rattle.answer_text.specs.Writes.{Appends};

use crate::beginning::world_of;
use answer_text::write_line;
use command_driver::{Close, Command, Next, Status, Trouble, drive};
use eap_method::{PeerMethod, ServerMethod};
use eap_world::{Brief, Methods, World};
use login_setup::Event;
use octet_io::{Failed, Sink, Source};
use scenario_text::{ItemKind, ScenarioReader};
use std::alloc::Global;
use trace_text::{write_end, write_event_brief, write_start_brief};

/// The most events of a scenario.
const MAX_EVENTS: u32 = 10_000;

/// A scenario that is being read: what has been read of it, and its world from the line `events` on.
#[derive(Drop)]
pub struct Replay<P, S> {
    alloc: Global,
    /// Whether the octets of packets and the names of keys are written.
    names: bool,
    reader: ScenarioReader,
    /// The objects, until the world begins.
    methods: Option<Methods<P, S>>,
    world: Option<World<P, S>>,
}

impl<P: PeerMethod, S: ServerMethod> Replay<P, S> {
    ghost use Rattle.world_commands.specs.Replay.{starts, steps, end_of};
    ghost use Rattle.command_driver.specs.Commands.{AnswersLine, AnswersEnd, ends};
    ghost use Rattle.scenario_text.specs.Reading.{no_settings};
    ghost use Rattle.text_tables.specs.declared.phase.Phase.TheVariants as Phase;
    ghost use Rattle.std.specs.Prelude.{true};

    /// Nothing has been read yet.
    pub fn new(alloc: Global, names: bool, methods: Methods<P, S>) -> Replay<P, S>
        ensures { result ≡ record {
          alloc = alloc;
          names = names;
          reader = record { phase = Phase.Unread; settings = no_settings };
          methods = Some methods;
          world = None;
        } }
    {
        Replay {
            alloc,
            names,
            reader: ScenarioReader::new(),
            methods: Some(methods),
            world: None,
        }
    }

    /// The line `events`: the world starts.
    #[tactic(auto, unfolding(answer_text::specs::Writes::Appends))]
    fn start<W: Sink>(&mut self, sink: &mut W) -> Result<Next, Trouble>
        requires whole { IsOk (setup_of self.old.reader.settings) }
        requires ready { IsReady P.peer_shown S.server_shown self.old 0 }
        ensures ready_after { IfOk result (λ next. IsReady P.peer_shown S.server_shown self.new 0) }
        ensures answers { (setup : Setup) → setup_of self.old.reader.settings ≡ Ok setup
            → AnswersLine W.shown result sink.old sink.new
            (starts (seen_of P.peer_shown S.server_shown self.old) setup) true
            (seen_of P.peer_shown S.server_shown self.new) }
    {
        if self.world.is_some() {
            return Ok(Next::Proceed);
        }
        let Ok(setup) = self.reader.setup() else {
            return Ok(Next::Proceed);
        };
        let Some(methods) = self.methods.take() else {
            return Ok(Next::Proceed);
        };
        let mut world = world_of(self.alloc, setup, methods);
        let Ok(told) = world.start_brief() else {
            return Err(Trouble::Memory);
        };
        let octets = world.octets_of(&told);
        let written = write_start_brief(sink, world.mode(), &told, octets, self.names);
        self.world = Some(world);
        written?;
        Ok(Next::Proceed)
    }

    /// The end of the input, after the line `end`.
    #[tactic(auto, unfolding(answer_text::specs::Writes::Appends))]
    fn end<W: Sink>(&self, sink: &mut W) -> Result<Close, Failed>
        ensures { AnswersEnd W.shown result sink.old sink.new
            (record {
              text = end_of (seen_of P.peer_shown S.server_shown self.now).world;
              closed = ends Status.Done;
            }) }
    {
        if let Some(world) = &self.world {
            write_end(sink, world)?;
        }
        Ok(Close::Ends(Status::Done))
    }

    /// An event.
    #[tactic(auto, unfolding(answer_text::specs::Writes::Appends))]
    fn step<W: Sink>(&mut self, sink: &mut W, event: &Event) -> Result<Next, Trouble>
        requires ready { IsReady P.peer_shown S.server_shown self.old 0 }
        ensures ready_after { IfOk result (λ next. IsReady P.peer_shown S.server_shown self.new 0) }
        ensures answers { AnswersLine W.shown result sink.old sink.new
            (steps (seen_of P.peer_shown S.server_shown self.old) event.now) true
            (seen_of P.peer_shown S.server_shown self.new) }
    {
        let names = self.names;
        let Some(world) = &mut self.world else {
            return Ok(Next::Proceed);
        };
        if world.counts().events >= MAX_EVENTS {
            return Ok(Next::Refuses("TooMuch", Status::TooMuch));
        }
        let Ok(told) = world.step_brief(event) else {
            return Err(Trouble::Memory);
        };
        write_outcome(sink, world, &told, names)?;
        Ok(Next::Proceed)
    }
}

impl<P: PeerMethod, S: ServerMethod> Command for Replay<P, S> {
    ghost use Rattle.world_commands.specs.Replay.{ReplayNow, replay_step, replay_closing};
    ghost use Rattle.world_commands.specs.Replay.{replay_lacks};

    ghost Seen = { ReplayNow };

    ghost seen = { seen_of P.peer_shown S.server_shown };

    ghost line_result = { replay_step };

    ghost closing = { replay_closing };

    ghost lacks = { replay_lacks };

    ghost is_valid_after = { IsReady P.peer_shown S.server_shown };

    #[tactic(auto, unfolding(crate::specs::Replay::replay_step, crate::specs::Replay::replay_lacks))]
    fn handle_line<W: Sink>(&mut self, sink: &mut W, line: &[u8]) -> Result<Next, Trouble> {
        let mut event = Event::Idle;
        match self.reader.line_into(line, &mut event) {
            Ok(ItemKind::Ready) => self.start(sink),
            Ok(ItemKind::Event) => self.step(sink, &event),
            Ok(ItemKind::Nothing | ItemKind::End) => Ok(Next::Proceed),
            Err(fault) => Ok(Next::Refuses(fault.word(), Status::Refused)),
        }
    }

    #[tactic(auto, unfolding(crate::specs::Replay::replay_closing))]
    fn close<W: Sink>(&self, sink: &mut W) -> Result<Close, Failed> {
        match self.reader.finish() {
            Ok(()) => self.end(sink),
            Err(fault) => Ok(Close::Misses(fault.word())),
        }
    }
}

/// Writes the lines of the result of the last event of this world.
fn write_outcome<W: Sink, P: PeerMethod, S: ServerMethod>(
    sink: &mut W,
    world: &World<P, S>,
    told: &Brief,
    names: bool,
) -> Result<(), Failed>
    ensures { Appends W.shown result sink.old sink.new
        (told_text names (octets_of_sent world.now.sent told.now.sent) told.now) }
{
    write_event_brief(sink, told, world.octets_of(told), names)
}

/// Reads a scenario and writes the trace of its run, with names or without.
pub fn replay_scenario<P: PeerMethod, M: ServerMethod, S: Source, W: Sink>(
    alloc: Global,
    names: bool,
    source: &mut S,
    sink: &mut W,
    methods: Methods<P, M>,
) -> Status
    requires { HasBoth P.peer_shown M.server_shown methods }
    ensures { Responds S.shown W.shown
        (asked_replay names) result source.old source.new sink.old sink.new }
{
    match write_trace_header(sink) {
        Ok(()) => {
            let mut command = Replay::new(alloc, names, methods);
            drive(&mut command, source, sink)
        }
        Err(_) => Status::WriteFault,
    }
}

/// Writes the first line of a trace.
#[tactic(auto, unfolding(crate::specs::Scenario::trace_header))]
fn write_trace_header<W: Sink>(sink: &mut W) -> Result<(), Failed>
    ensures { Appends W.shown result sink.old sink.new trace_header }
{
    write_line(sink, b"eap-trace 1")
}
