//! The command `bulk N K`: many conversations from one number. It reads no input.

ghost use Rattle.std.specs.Prelude.{◌≡◌, ◌≤◌, map, string_bytes, IfSome};
ghost use Rattle.world_commands.specs.Bulk.{max_count, bulk_of, bulk_encoded, bulk_text};
ghost use Rattle.world_commands.specs.Bulk.{bulk_answer};
ghost use Rattle.world_commands.specs.Replay.{HasBoth};
ghost use Rattle.command_driver.specs.Responding.{IsAnswered, at_any};
ghost use Rattle.answer_text.specs.Writes.{Appends};

use answer_text::Piece::{Line, Number, Text};
use answer_text::write_pieces;
use bulk_run::{Summary, run_all};
use command_driver::Status;
use eap_method::{PeerMethod, ServerMethod};
use eap_world::Methods;
use octet_io::{Failed, Sink};
use std::alloc::Global;
use text_tables::read_number;

/// The largest number from which all is drawn.
const MAX_NUMBER: u32 = 999_999;

/// The most conversations of one call.
const MAX_COUNT: u32 = 1000;

/// What the words `bulk N K` ask for.
#[derive(Clone, Copy, PartialEq, Eq, Debug)]
pub struct Bulk {
    /// The number from which all is drawn, 0 to 999,999.
    pub number: u32,
    /// How many conversations, 1 to 1,000.
    pub count: u32,
}

/// What the words ask for, if they are `bulk N K`. N and K are spelled as the numbers of a scenario, in
/// decimal digits without a leading zero.
pub fn bulk_of(words: &Vec<String>) -> Option<Bulk>
    ensures value { result ≡ bulk_of (map string_bytes words.now.items) }
    ensures few { IfSome result (λ bulk. bulk.count ≤ max_count) }
{
    match words.as_slice() {
        [word, number, count] if word.as_str() == "bulk" => {
            read_bulk(number.as_bytes(), count.as_bytes())
        }
        _ => None,
    }
}

fn read_bulk(number: &[u8], count: &[u8]) -> Option<Bulk>
    ensures value { result ≡ bulk_encoded number.now count.now }
    ensures few { IfSome result (λ bulk. bulk.count ≤ max_count) }
{
    let number = read_number(number, 0, MAX_NUMBER).ok()?;
    let count = read_number(count, 1, MAX_COUNT).ok()?;
    Some(Bulk { number, count })
}

/// Runs the conversations and writes their summary. It answers `Memory` for want of memory alone, and has
/// then written nothing.
#[tactic(auto, unfolding(answer_text::specs::Writes::Appends, crate::specs::Bulk::bulk_answer))]
pub fn run_bulk<P: PeerMethod, M: ServerMethod, W: Sink>(
    alloc: Global,
    bulk: Bulk,
    sink: &mut W,
    methods: Methods<P, M>,
) -> Status
    requires few { bulk.count ≤ max_count }
    requires both { HasBoth P.peer_shown M.server_shown methods }
    ensures { IsAnswered W.shown (bulk_answer bulk) at_any result sink.old sink.new }
{
    match run_all(alloc, bulk.number, bulk.count, methods) {
        Err(_) => Status::Memory,
        Ok(summary) => match write_summary(sink, bulk, summary) {
            Ok(()) => Status::Done,
            Err(_) => Status::WriteFault,
        },
    }
}

/// Writes the words, how the conversations ended, in how many a tag was broken, and what was delivered and discarded in
/// them.
fn write_summary<W: Sink>(sink: &mut W, bulk: Bulk, summary: Summary) -> Result<(), Failed>
    ensures { Appends W.shown result sink.old sink.new (bulk_text bulk.number bulk.count summary) }
{
    write_pieces(
        sink,
        &[
            Number(b"bulk ", u64::from(bulk.number)),
            Line(b" ", u64::from(bulk.count)),
            Line(b"conversations ", u64::from(summary.conversations)),
            Line(b"agree ", u64::from(summary.agree)),
            Line(b"open ", u64::from(summary.unfinished)),
            Line(b"apart ", u64::from(summary.apart)),
            Line(b"broken ", u64::from(summary.broken)),
            Line(b"deliveries ", u64::from(summary.deliveries)),
            Line(b"discards ", u64::from(summary.discards)),
            Text(b"end\n"),
        ],
    )
}
