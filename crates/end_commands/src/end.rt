//! A command over one end: its settings are read and then its inputs, and each input is answered before the next line
//! is read. But for their machines the commands `peer` and `server` are the same.

ghost use Rattle.std.specs.Prelude.{◌≡◌, false, IfOk};
ghost use Rattle.answer_text.specs.Writes.{Appends};
ghost use Rattle.end_pipe.specs.EndRun.{end_now, end_step};
ghost use Rattle.end_pipe.specs.declared.input.EndInput.{EndInput};
ghost use Rattle.end_commands.specs.EndText.{told_text};

use crate::lines::{write_last, write_step};
use command_driver::{Close, Command, Next, Status, Trouble};
use eap_method::{NoRecords, Tags};
use end_pipe::{EndInput, EndPipe, EndReader, EndStep, Machine, Role};
use octet_io::{Failed, Sink};
use octet_lists::Packet;
use scenario_text::ItemKind;

/// The most inputs of an end.
const MAX_INPUTS: u32 = 10_000;

/// A text of an end that is being read: what has been read of it, and the end from the line `events` on.
#[derive(Drop)]
pub struct End<M, E> {
    pub(crate) reader: EndReader,
    /// The objects, until the end begins.
    pub(crate) methods: Option<Vec<M>>,
    pub(crate) pipe: Option<EndPipe<E>>,
    /// How many inputs were taken.
    taken: u32,
    /// The packet that the end sends.
    pub(crate) packet: Packet,
    /// The records of its tags.
    pub(crate) tags: Tags<NoRecords>,
}

/// How an end begins.
pub trait CanStart<M>: Machine {
    ghost use Rattle.std.specs.Prelude.{List, option_map};
    ghost use Rattle.end_pipe.specs.EndRun.{result_with};
    ghost use Rattle.command_driver.specs.Commands.{goes};
    ghost use Rattle.end_commands.specs.EndCommand.{IsReady, starts_at, end_seen};
    ghost use Rattle.end_commands.specs.EndText.{start_text};

    /// Whether there is an object of each method.
    ghost has_both: { List M → Type 0 };

    /// The line `events`: the end begins with the settings that were read. Answers what it does at its start, if it has
    /// one.
    fn begin(end: &mut End<M, Self>) -> Option<EndStep>
        requires ready { IsReady Self.is_running has_both end.old 0 }
        ensures ready_after { IsReady Self.is_running has_both end.new 0 }
        ensures starts { starts_at Self.table (end_seen Self.shown end.old)
            ≡ record {
              text = start_text
                  (option_map (λ step. result_with step end.new.packet end.new.tags) result);
              ruling = goes;
              after = end_seen Self.shown end.new;
            } };
}

impl<M, E: CanStart<M>> End<M, E> {
    ghost use Rattle.command_driver.specs.Commands.{AnswersLine, AnswersEnd, ends};
    ghost use Rattle.command_driver.specs.declared.status.Status.{Status};
    ghost use Rattle.end_commands.specs.EndCommand.{IsReady, starts_at, end_seen, last_of};
    ghost use Rattle.end_commands.specs.EndCommand.{initial_command, steps_at};

    /// Nothing has been read yet of this end's text.
    pub fn new(role: Role, methods: Vec<M>) -> End<M, E>
        requires { E.has_both methods.items }
        ensures seen { end_seen E.shown result ≡ initial_command role }
        ensures ready { IsReady E.is_running E.has_both result 0 }
    {
        End {
            reader: EndReader::of_role(role),
            methods: Some(methods),
            pipe: None,
            taken: 0,
            packet: Packet::new(),
            tags: Tags::new(),
        }
    }

    /// The line `events`.
    #[tactic(auto, unfolding(answer_text::specs::Writes::Appends))]
    fn begin<W: Sink>(&mut self, sink: &mut W) -> Result<Next, Trouble>
        requires ready { IsReady E.is_running E.has_both self.old 0 }
        ensures ready_after { IfOk result (λ next. IsReady E.is_running E.has_both self.new 0) }
        ensures answers { AnswersLine W.shown
            result sink.old sink.new
            (starts_at E.table (end_seen E.shown self.old)) false (end_seen E.shown self.new) }
    {
        if let Some(step) = E::begin(self) {
            write_step(sink, 0, &step, self.packet.as_slice())?;
        }
        Ok(Next::Proceed)
    }

    /// An input.
    #[tactic(auto, unfolding(answer_text::specs::Writes::Appends))]
    fn step<W: Sink>(&mut self, sink: &mut W, input: &EndInput) -> Result<Next, Trouble>
        requires ready { IsReady E.is_running E.has_both self.old 0 }
        ensures ready_after { IfOk result (λ next. IsReady E.is_running E.has_both self.new 0) }
        ensures answers { AnswersLine W.shown
            result sink.old sink.new
            (steps_at E.table (end_seen E.shown self.old) input.now) false
            (end_seen E.shown self.new) }
    {
        match &mut self.pipe {
            None => Ok(Next::Proceed),
            Some(pipe) => {
                if MAX_INPUTS <= self.taken {
                    return Ok(Next::Refuses("TooMuch", Status::TooMuch));
                }
                self.taken += 1;
                let number = self.taken;
                tell(pipe, sink, number, input, &mut self.packet, &mut self.tags)?;
                Ok(Next::Proceed)
            }
        }
    }

    /// The end of the input, after the line `end`.
    #[tactic(auto, unfolding(answer_text::specs::Writes::Appends))]
    fn end<W: Sink>(&self, sink: &mut W) -> Result<Close, Failed>
        ensures { AnswersEnd W.shown result sink.old sink.new (record {
          text = last_of E.table (end_seen E.shown self.now).pipe;
          closed = ends Status.Done;
        }) }
    {
        if let Some(pipe) = &self.pipe {
            write_last(sink, pipe.state())?;
        }
        Ok(Close::Ends(Status::Done))
    }
}

/// Passes an input to the end, and writes the lines of what it does, with this number.
fn tell<E: Machine, W: Sink>(
    pipe: &mut EndPipe<E>,
    sink: &mut W,
    number: u32,
    input: &EndInput,
    packet: &mut Packet,
    tags: &mut Tags<NoRecords>,
) -> Result<(), Failed>
    requires { E.is_running pipe.old.machine }
    ensures running { E.is_running pipe.new.machine }
    ensures after { (end_step E.table (end_now E.shown pipe.old) input.now).after
        ≡ end_now E.shown pipe.new }
    ensures text { Appends W.shown result sink.old sink.new
        (told_text number (end_step E.table (end_now E.shown pipe.old) input.now).told) }
{
    let step = pipe.step_into(input, packet, tags);
    write_step(sink, number, &step, packet.as_slice())
}

impl<M, E: CanStart<M>> Command for End<M, E> {
    ghost use Rattle.end_commands.specs.EndCommand.{CommandNow, IsReady, end_closing, end_lacks};
    ghost use Rattle.end_commands.specs.EndCommand.{end_seen, end_line_result};

    ghost Seen = { CommandNow E.Now };

    ghost seen = { end_seen E.shown };

    ghost line_result = { end_line_result E.table };

    ghost closing = { end_closing E.table };

    ghost lacks = { end_lacks };

    ghost is_valid_after = { IsReady E.is_running E.has_both };

    #[tactic(auto, unfolding(crate::specs::EndCommand::end_line_result))]
    fn handle_line<W: Sink>(&mut self, sink: &mut W, line: &[u8]) -> Result<Next, Trouble> {
        let mut input = EndInput::Idle;
        match self.reader.line_into(line, &mut input) {
            Ok(ItemKind::Ready) => self.begin(sink),
            Ok(ItemKind::Event) => self.step(sink, &input),
            Ok(ItemKind::Nothing | ItemKind::End) => Ok(Next::Proceed),
            Err(fault) => Ok(Next::Refuses(fault.word(), Status::Refused)),
        }
    }

    #[tactic(auto, unfolding(crate::specs::EndCommand::end_closing))]
    fn close<W: Sink>(&self, sink: &mut W) -> Result<Close, Failed> {
        match self.reader.finish() {
            Ok(()) => self.end(sink),
            Err(fault) => Ok(Close::Misses(fault.word())),
        }
    }
}
