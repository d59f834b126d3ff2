//! The lines that say what an end does. Each call answers `Failed` exactly if a write of the sink failed; a prefix of
//! the lines was then appended.

ghost use Rattle.std.specs.Prelude.{Some, None, if◌then◌else◌};
ghost use Rattle.eap_method.specs.Tags.{Tags};
ghost use Rattle.answer_text.specs.Writes.{Appends};
ghost use Rattle.end_pipe.specs.EndRun.{result_with};
ghost use Rattle.end_commands.specs.EndText.{acted_text, keys_line, keys_text, last_text};
ghost use Rattle.end_commands.specs.EndText.{send_text, skip_line, told_text};

use answer_text::Piece::{Hex, Leading, Text};
use answer_text::{write_cause, write_nothing, write_pieces, write_states};
use eap_method::Report;
use eap_packet::State;
use end_pipe::EndStep;
use login_keys::key_name;
use octet_io::{Failed, Sink};

/// Writes the lines of what an end does at the input of this number, 0 for its start; the packet that it sends, if it
/// sends one, has these octets.
#[tactic(auto, unfolding(crate::specs::EndText::told_text))]
pub fn write_step<W: Sink>(
    sink: &mut W,
    number: u32,
    told: &EndStep,
    octets: &[u8],
) -> Result<(), Failed>
    ensures { (tags : Tags) → Appends W.shown result sink.old sink.new
        (told_text number (result_with told.now octets.now tags)) }
{
    if told.skipped {
        write_skip(sink, number)
    } else {
        write_acted(sink, number, told, octets)
    }
}

/// Writes the last lines: the end's state, and `end`.
#[tactic(auto, unfolding(crate::specs::EndText::last_text))]
pub fn write_last<W: Sink>(sink: &mut W, state: State) -> Result<(), Failed>
    ensures { Appends W.shown result sink.old sink.new (last_text state) }
{
    write_pieces(
        sink,
        &[
            Text(b"state "),
            Text(state.word().as_bytes()),
            Text(b"\n"),
            Text(b"end\n"),
        ],
    )
}

/// Writes the line of an input that is skipped.
fn write_skip<W: Sink>(sink: &mut W, number: u32) -> Result<(), Failed>
    ensures { Appends W.shown result sink.old sink.new (skip_line number) }
{
    write_pieces(sink, &[Leading(u64::from(number), b" skip Ended\n")])
}

/// Writes the lines of what an end does at an input that isn't skipped.
#[tactic(auto, using(answer_text::proofs::Fronts::appends_both, answer_text::proofs::Fronts::appends_front))]
fn write_acted<W: Sink>(
    sink: &mut W,
    number: u32,
    told: &EndStep,
    octets: &[u8],
) -> Result<(), Failed>
    ensures { (tags : Tags) → Appends W.shown result sink.old sink.new
        (acted_text number (result_with told.now octets.now tags)) }
{
    write_states(sink, number, told.step.path.as_slice())?;
    write_cause(sink, number, told.step.cause)?;
    write_sent(sink, number, octets, told.step.sends)?;
    write_keys(sink, number, &told.named)
}

/// Writes all octets of the packet that is sent in hex, in one line, if one is.
fn write_sent<W: Sink>(sink: &mut W, number: u32, octets: &[u8], sends: bool) -> Result<(), Failed>
    ensures { Appends W.shown result sink.old sink.new
        (send_text number (if sends then Some octets.now else None)) }
{
    if sends {
        write_pieces(
            sink,
            &[
                Leading(u64::from(number), b" send "),
                Hex(b"", octets),
                Text(b"\n"),
            ],
        )
    } else {
        write_nothing(sink)
    }
}

/// Writes the names of the keys of a report that the end first has, if there is one.
fn write_keys<W: Sink>(sink: &mut W, number: u32, named: &Option<Report>) -> Result<(), Failed>
    ensures { Appends W.shown result sink.old sink.new (keys_text number named.now) }
{
    match named {
        None => write_nothing(sink),
        Some(report) => {
            let msk = key_name(&report.msk);
            let emsk = key_name(&report.emsk);
            write_key_names(sink, number, &msk, &emsk)
        }
    }
}

/// Writes the names of keys, in one line.
fn write_key_names<'a, W: Sink>(
    sink: &mut W,
    number: u32,
    msk: &'a [u8],
    emsk: &'a [u8],
) -> Result<(), Failed>
    ensures { Appends W.shown result sink.old sink.new (keys_line number msk.now emsk.now) }
{
    write_pieces(
        sink,
        &[
            Leading(u64::from(number), b" keys msk "),
            Hex(b"", msk),
            Hex(b" emsk ", emsk),
            Text(b"\n"),
        ],
    )
}
