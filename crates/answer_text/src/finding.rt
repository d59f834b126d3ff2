//! Writing the finding of a captured packet, in one line.

ghost use Rattle.answer_text.specs.Writes.{Appends};
ghost use Rattle.answer_text.specs.Findings.{finding_text, findings_text};

use crate::pieces::Piece::{Leading, Line, Number, Text};
use crate::pieces::write_pieces;
use capture_check::Finding;
use octet_io::{Failed, Sink};

/// Writes the finding of the packet with this number, in one line. `Failed`: a write failed, and a
/// prefix of the line was appended.
#[tactic(auto, unfolding(crate::specs::Findings::finding_text))]
pub fn write_finding<W: Sink>(sink: &mut W, number: u32, finding: &Finding) -> Result<(), Failed>
    ensures { Appends W.shown result sink.old sink.new (finding_text number finding.now) }
{
    let number = u64::from(number);
    match finding {
        Finding::Good => write_pieces(sink, &[Leading(number, b" good\n")]),
        Finding::Malformed(cause) => write_pieces(
            sink,
            &[
                Leading(number, b" malformed "),
                Text(cause.word().as_bytes()),
                Text(b"\n"),
            ],
        ),
        Finding::TagBad => write_pieces(sink, &[Leading(number, b" tag-bad\n")]),
        Finding::TagGood(name) => write_pieces(
            sink,
            &[
                Leading(number, b" tag-good "),
                Text(name.as_slice()),
                Text(b"\n"),
            ],
        ),
        Finding::NoKey => write_pieces(sink, &[Leading(number, b" no-key\n")]),
        Finding::NoContext => write_pieces(sink, &[Leading(number, b" no-context\n")]),
    }
}

/// Writes how many packets there were, and how many of them are malformed or have a bad tag. `Failed`: a
/// write failed, and a prefix of the line was appended.
#[tactic(auto, unfolding(crate::specs::Findings::findings_text))]
pub fn write_finding_counts<W: Sink>(
    sink: &mut W,
    packets: u32,
    findings: u32,
) -> Result<(), Failed>
    ensures { Appends W.shown result sink.old sink.new (findings_text packets findings) }
{
    write_pieces(
        sink,
        &[
            Number(b"packets ", u64::from(packets)),
            Line(b" findings ", u64::from(findings)),
        ],
    )
}
