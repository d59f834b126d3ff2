//! Reading a source line by line.

ghost use Rattle.std.specs.Prelude.{◌≡◌, ◌≤◌, ◌<◌, ◌+◌, false, length, drop, ℕ, List, Option, []};
ghost use Rattle.std.specs.Prelude.{◌∷◌, ◌==◌};
ghost use Rattle.std.specs.List.{position, position_or_len};
ghost use Rattle.octet_io.specs.Known.{nothing_known};
ghost use Rattle.octet_io.specs.Lines.{without_cr};

use crate::ahead::ReadBuffer;
use crate::source::Source;
use octet_lists::Octets;
use std::marker::Model;

/// What `LineReader::next_line` met.
#[derive(Clone, Copy, PartialEq, Eq, Debug)]
pub enum NextLine {
    /// A line, which `line()` now gives.
    Line,
    /// The end of the source, at the start of a line.
    End,
    /// A line's octet 4,097.
    TooLong,
    /// Octet 16,777,217 of the source.
    TooMuch,
    /// A read that failed.
    Read,
}

/// Cuts a source into lines: each ends with LF, and one CR directly before the LF is dropped. The last
/// line may lack its LF, and then keeps a CR. A line has at most 4,096 octets without its LF, and the
/// source at most 16,777,216. Up to 4,096 octets are read at a time; the limits count those of the lines
/// that were returned.
#[derive(Drop)]
pub struct LineReader {
    taken: u32,
    line: Octets<MAX_LINE>,
    number: u32,
    over: bool,
    ahead: ReadBuffer,
}

/// What the buffered octets do to the line that is begun.
enum Step {
    HasContinued,
    EndsLine,
    PassesLine,
    PassesInput,
}

/// The most octets of a line.
const MAX_LINE: usize = 4096;

/// The most octets of an input.
pub const MAX_INPUT: u32 = 16_777_216;

/// The octet that ends a line.
pub const LF: u8 = 10;

impl Model for LineReader {
    ghost use Rattle.std.specs.Prelude.{◌≤◌, ◌+◌, if◌then◌else◌};
    ghost use Rattle.octet_io.specs.Lines.{LineReading, max_input};

    ghost Value = { LineReading };

    ghost view = { λ r. record { taken = r.taken; held = r.ahead; line = r.line; number = r.number; over = r.over } };

    ghost invariant = { λ r. (r.taken ≤ max_input) × (r.number ≤ r.taken + (if r.over then 1 else 0)) };
}

impl LineReader {
    ghost use Rattle.std.specs.Prelude.{[], Some};
    ghost use Rattle.octet_io.specs.declared.lines.NextLine.TheVariants.{Line};
    ghost use Rattle.octet_io.specs.Lines.{lines_left, Divides, Numbers, StartsAt, ConsumesSome};
    ghost use Rattle.octet_io.specs.Lines.{Exhausts, Faults, is_last, max_line, max_input};
    ghost use Rattle.octet_io.specs.LineSteps.{Advances, ConsumesOctets, Stops, lines_within};
    ghost use Rattle.octet_io.specs.LineSteps.{initiated_by, end_answer};

    /// A reader that has read nothing.
    pub fn new() -> LineReader
        ensures { result ≡ record { taken = 0; held = []; line = []; number = 0; over = false } }
    {
        LineReader {
            taken: 0,
            line: Octets::new(),
            number: 0,
            over: false,
            ahead: ReadBuffer::new(),
        }
    }

    /// Reads the next line of `source`, which `line()` gives if the answer is `Line`. After every
    /// other answer the reader is over.
    pub fn next_line<S: Source>(&mut self, source: &mut S) -> NextLine
        requires { self.old.over ≡ false }

        // The lines are those of the octets that the reader has buffered and the source has left,
        // however they are cut into reads.
        ensures lines { Divides result self.new.line (lines_left self.old
            (S.shown.octets source.old)) (lines_left self.new (S.shown.octets source.new)) }
        ensures number { Numbers result self.old.number self.new.number }
        ensures started { StartsAt result self.old self.new }
        ensures over { self.new.over ≡ is_last result }
        ensures consumes { ConsumesSome result self.old.taken self.new.taken }
        ensures bounded { self.new.taken ≤ max_input }
        ensures exhausted { Exhausts result (S.shown.octets source.new) }

        ensures read { Faults S.shown result source.old source.new }
        ensures never_falls { S.shown.faults source.old ≤ S.shown.faults source.new }
    {
        self.start_line();
        let answer = self.read_line(source);
        self.end_line(answer);
        answer
    }

    /// Leaves the line that was read last.
    fn start_line(&mut self)
        requires { self.old.over ≡ false }
        ensures same { self.new ≡ record self.old { line = [] } }
        ensures bounded { self.new.taken ≤ max_input }
        ensures counted { self.new.number ≤ self.new.taken }
    {
        self.line.truncate(0);
    }

    /// Reads a line, without its number.
    fn read_line<S: Source>(&mut self, source: &mut S) -> NextLine
        requires empty_line { self.old.line ≡ [] }
        requires bounded { self.old.taken ≤ max_input }
        ensures lines { Divides result self.new.line (lines_within self.old
            (S.shown.octets source.old)) (lines_left self.new (S.shown.octets source.new)) }
        ensures number { self.new.number ≡ self.old.number }
        ensures over { self.new.over ≡ self.old.over }
        ensures consumes { ConsumesSome result self.old.taken self.new.taken }
        ensures bounded { self.new.taken ≤ max_input }
        ensures grows { self.old.taken ≤ self.new.taken }
        ensures initial { result ≡ NextLine.Read
            → self.new.taken ≡ self.old.taken + length self.new.line }
        ensures exhausted { Exhausts result (S.shown.octets source.new) }

        ensures read { Faults S.shown result source.old source.new }
        ensures never_falls { S.shown.faults source.old ≤ S.shown.faults source.new }
    {
        loop {
            if self.ahead.as_slice().is_empty() {
                match self.ahead.fill(source) {
                    Ok(0) => return self.last_answer(),
                    Ok(_) => {}
                    Err(_) => return NextLine::Read,
                }
            }
            match self.consume_stretch() {
                Step::HasContinued => {}
                Step::EndsLine => return NextLine::Line,
                Step::PassesLine => return NextLine::TooLong,
                Step::PassesInput => return NextLine::TooMuch,
            }
        }
    }

    /// Consumes the octets that it has buffered, up to the end of the line or to a limit.
    fn consume_stretch(&mut self) -> Step
        requires some { 0 < length self.old.held }
        ensures lines { (left : Option (List ℕ))
            → Advances result self.new (lines_within self.old left) left }
        ensures consumes { ConsumesOctets result self.old self.new }
        ensures number { self.new.number ≡ self.old.number }
        ensures over { self.new.over ≡ self.old.over }
        ensures bounded { self.new.taken ≤ max_input }
    {
        self.next_stretch();
        match self.ahead.as_slice().first() {
            None => Step::HasContinued,
            Some(octet) => {
                let octet = *octet;
                self.meet(octet)
            }
        }
    }

    /// Consumes the octets that it has buffered before the first LF, as many as pass no limit.
    fn next_stretch(&mut self)
        ensures lines { (left : Option (List ℕ))
            → lines_within self.old left ≡ lines_within self.new left }
        ensures consumed { self.new.taken + length self.old.line
            ≡ self.old.taken + length self.new.line }
        ensures some { self.new.taken + length self.new.held
            ≡ self.old.taken + length self.old.held }
        ensures grows { self.old.taken ≤ self.new.taken }
        ensures stops { Stops self.new }
        ensures number { self.new.number ≡ self.old.number }
        ensures over { self.new.over ≡ self.old.over }
        ensures bounded { self.new.taken ≤ max_input }
    {
        let room = MAX_LINE - self.line.len();
        let budget = (MAX_INPUT - self.taken) as usize;
        let held = self.ahead.as_slice();
        let count = octets_before_lf(held).min(room).min(budget);
        self.line.append(&held[..count]);
        self.ahead.skip(count);
        self.taken += count as u32;
    }

    /// Consumes the next octet that it has buffered, which ends the line or passes a limit.
    fn meet(&mut self, octet: u8) -> Step
        requires next { self.old.held ≡ octet ∷ drop 1 self.old.held }
        requires stops { Stops self.old }
        ensures lines { (left : Option (List ℕ))
            → Advances result self.new (lines_within self.old left) left }
        ensures consumes { ConsumesOctets result self.old self.new }
        ensures number { self.new.number ≡ self.old.number }
        ensures over { self.new.over ≡ self.old.over }
        ensures bounded { self.new.taken ≤ max_input }
    {
        if octet != LF && self.line.len() >= MAX_LINE {
            return Step::PassesLine;
        }
        if self.taken >= MAX_INPUT {
            return Step::PassesInput;
        }
        self.ahead.skip(1);
        self.taken += 1;
        drop_cr(&mut self.line);
        Step::EndsLine
    }

    /// The answer if nothing is buffered and the source has nothing left: a line that is begun ends here.
    fn last_answer(&self) -> NextLine
        requires { self.now.held ≡ [] }
        ensures lines { (left : Option (List ℕ)) → left ≡ nothing_known left
            → Divides result self.now.line (lines_within self.now left) (lines_left self.now left) }
        ensures answer { result ≡ end_answer self.now.line }
    {
        if self.line.is_empty() {
            NextLine::End
        } else {
            NextLine::Line
        }
    }

    /// Numbers the line that was begun, if one was. Every answer but a line is the last one.
    fn end_line(&mut self, answer: NextLine)
        requires alive { self.old.over ≡ false }
        requires counted { self.old.number ≤ self.old.taken }
        requires capacity { answer ≡ Line → self.old.number < self.old.taken }
        ensures { self.new ≡ record self.old {
          number = self.old.number + initiated_by answer self.old.line;
          over = is_last answer;
        } }
    {
        let has_initiated = match answer {
            NextLine::End => false,
            NextLine::Read => !self.line.is_empty(),
            NextLine::Line | NextLine::TooLong | NextLine::TooMuch => true,
        };
        self.over = answer != NextLine::Line;
        self.number += u32::from(has_initiated);
    }

    /// The octets of the line that was read last, at most 4,096.
    pub fn line(&self) -> &[u8]
        ensures same { result.now ≡ self.now.line }
        ensures bounded { length result.now ≤ max_line }
    {
        self.line.as_slice()
    }

    /// The number of the line last begun, from 1. It is 0 before the first.
    pub fn number(&self) -> u32
        ensures { result ≡ self.now.number }
    {
        self.number
    }

    /// True after every answer but `Line`.
    pub fn is_over(&self) -> bool
        ensures { result ≡ self.now.over }
    {
        self.over
    }
}

/// The number of octets before the first LF, or of all if there is none.
fn octets_before_lf(octets: &[u8]) -> usize
    ensures count { result ≡ position_or_len (λ b. b == 10) octets.now }
    ensures bounded { result ≤ length octets.now }
{
    first_lf(octets).unwrap_or(octets.len())
}

fn first_lf(octets: &[u8]) -> Option<usize>
    ensures { result ≡ position (λ b. b == 10) octets.now }
{
    octets.iter().position(|b| *b == LF)
}

/// Drops one CR at the end of the line.
fn drop_cr(line: &mut Octets<MAX_LINE>)
    ensures { line.new ≡ without_cr line.old }
{
    if line.as_slice().ends_with(b"\r") {
        line.truncate(line.len() - 1);
    }
}
