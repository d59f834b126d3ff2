//! Reading a source as a pcap file.

ghost use Rattle.std.specs.Prelude.{◌≡◌, ◌≤◌, ◌<◌, ◌+◌, ◌-◌, ◌++◌, min, take, drop, true, false};
ghost use Rattle.std.specs.Prelude.{length, [], Some, Ok, IfOk, IfErr, OnErr, OnOk};
ghost use Rattle.octet_io.specs.Known.{nothing_known};

use crate::header::judge_header;
use crate::order::OctetOrder;
use octet_io::{MAX_INPUT, ReadBuffer, Source};
use octet_lists::Octets;
use std::marker::Model;

/// What `PcapReader::next_record` met.
#[derive(Clone, Copy, PartialEq, Eq, Debug)]
pub enum NextRecord {
    /// A record, whose frame `frame()` now gives.
    Record,
    /// The end of the source, directly behind the header or a record.
    End,
    /// The end of the source elsewhere.
    CutFile,
    /// Another magic number than that of microseconds, in a whole header.
    BadMagic,
    /// Another version than 2.4.
    BadVersion,
    /// Another link type than Ethernet.
    BadLink,
    /// A record whose frame has over 262,144 octets.
    BadRecord,
    /// Octet 16,777,217 of the source.
    TooMuch,
    /// A read that failed.
    Read,
}

/// Reads a source as a pcap file of Ethernet frames (draft-ietf-opsawg-pcap): a header, and then records of
/// a frame each. A frame has at most 262,144 octets, of which the first 4,096 are kept, and the source at most
/// 16,777,216. Up to 4,096 octets are read at a time; the limit counts those that were consumed.
#[derive(Drop)]
pub struct PcapReader {
    taken: u32,
    order: Option<OctetOrder>,
    frame: Octets<MAX_STORED>,
    number: u32,
    over: bool,
    ahead: ReadBuffer,
}

const MAX_FRAME: u32 = 262_144;

const MAX_STORED: usize = 4096;

/// The octets of a file's header.
const HEADER: u32 = 24;

/// The octets of a record's time and of its frame's length.
const TO_LENGTH: u32 = 12;

/// The octets of a frame's length before it was cut.
const FIRST_LENGTH: u32 = 4;

impl Model for PcapReader {
    ghost use Rattle.std.specs.Prelude.{◌≤◌, ◌+◌, if◌then◌else◌};
    ghost use Rattle.octet_io.specs.Lines.{max_input};
    ghost use Rattle.eapol_capture.specs.Reading.{Reading};

    ghost Value = { Reading };

    ghost view = { λ r. record { taken = r.taken; held = r.ahead; order = r.order; frame = r.frame; number = r.number; over = r.over } };

    ghost invariant = { λ r. (r.taken ≤ max_input) × (r.number ≤ r.taken + (if r.over then 1 else 0)) };
}

impl PcapReader {
    ghost use Rattle.std.specs.Prelude.{None};
    ghost use Rattle.eapol_capture.specs.declared.reader.NextRecord.TheVariants.{Record, Read};
    ghost use Rattle.octet_io.specs.Lines.{max_input};
    ghost use Rattle.eapol_capture.specs.Files.{max_stored, number, order_or_fault};
    ghost use Rattle.eapol_capture.specs.Reading.{contents_left, octets_left, Answers, begun};
    ghost use Rattle.eapol_capture.specs.Reading.{records_start, ConsumesSome, Exhausts, Waits};
    ghost use Rattle.eapol_capture.specs.Reading.{Faults, is_last};
    ghost use Rattle.eapol_capture.specs.Parts.{answer_of, order_found, Preserves, Parts, Frames};
    ghost use Rattle.eapol_capture.specs.Parts.{Opens, Heads};

    /// A reader that has read nothing.
    pub fn new() -> PcapReader
        ensures { result
            ≡ record { taken = 0; held = []; order = None; frame = []; number = 0; over = false } }
    {
        PcapReader {
            taken: 0,
            order: None,
            frame: Octets::new(),
            number: 0,
            over: false,
            ahead: ReadBuffer::new(),
        }
    }

    /// Reads the next record of `source`, whose frame `frame()` gives if the answer is `Record`. After
    /// every other answer the reader is over.
    pub fn next_record<S: Source>(&mut self, source: &mut S) -> NextRecord
        requires { self.old.over ≡ false }

        // The answers are those of the octets that the reader has buffered and the source has left, however
        // they are cut into reads. If these decide, no further read is asked for.
        ensures contents { Answers result self.old self.new (S.shown.octets source.old)
            (S.shown.octets source.new) }
        ensures number { self.new.number
            ≡ self.old.number + begun result (records_start self.old) self.new }
        ensures over { self.new.over ≡ is_last result }
        ensures consumes { ConsumesSome result self.old.taken self.new.taken }
        ensures bounded { self.new.taken ≤ max_input }
        ensures exhausted { Exhausts result (S.shown.octets source.new) }
        ensures waits { Waits result self.old self.new (S.shown.octets source.old) }

        ensures read { Faults S.shown result source.old source.new }
        ensures never_falls { S.shown.faults source.old ≤ S.shown.faults source.new }
    {
        let start = self.start();
        let answer = match self.read_next(source) {
            Ok(_) => NextRecord::Record,
            Err(answer) => answer,
        };
        self.settle(answer, start);
        answer
    }

    /// The offset of the next record, in octets.
    fn start(&self) -> u32
        requires { self.now.over ≡ false }
        ensures place { result ≡ records_start self.now }
        ensures bounded { self.now.taken ≤ max_input }
        ensures counted { self.now.number ≤ self.now.taken }
    {
        match self.order {
            Some(_) => self.taken,
            None => self.taken + HEADER,
        }
    }

    /// Numbers the record that was begun, if one was. Every answer but a record is the last one.
    fn settle(&mut self, answer: NextRecord, start: u32)
        requires alive { self.old.over ≡ false }
        requires counted { self.old.number ≤ self.old.taken }
        requires capacity { answer ≡ Record → self.old.number < self.old.taken }
        ensures { self.new ≡ record self.old {
          number = self.old.number + begun answer start self.old;
          over = is_last answer;
        } }
    {
        let has_initiated = match answer {
            NextRecord::Record | NextRecord::BadRecord => true,
            NextRecord::CutFile | NextRecord::TooMuch => self.order.is_some(),
            NextRecord::Read => start < self.taken,
            _ => false,
        };
        self.over = answer != NextRecord::Record;
        self.number += u32::from(has_initiated);
    }

    /// Reads the header, if that wasn't done, and a record.
    fn read_next<S: Source>(&mut self, source: &mut S) -> Result<(), NextRecord>
        requires bounded { self.old.taken ≤ max_input }
        ensures contents { Answers (answer_of result) self.old self.new (S.shown.octets source.old)
            (S.shown.octets source.new) }
        ensures number { self.new.number ≡ self.old.number }
        ensures over { self.new.over ≡ self.old.over }
        ensures consumes { ConsumesSome (answer_of result) self.old.taken self.new.taken }
        ensures bounded { self.new.taken ≤ max_input }
        ensures exhausted { Exhausts (answer_of result) (S.shown.octets source.new) }
        ensures waits { Waits (answer_of result) self.old self.new (S.shown.octets source.old) }
        ensures read { Faults S.shown (answer_of result) source.old source.new }
        ensures never_falls { S.shown.faults source.old ≤ S.shown.faults source.new }
    {
        match self.order {
            Some(order) => self.read_frame(source, order),
            None => match self.read_header(source) {
                Ok(order) => self.read_frame(source, order),
                Err(answer) => Err(answer),
            },
        }
    }

    /// Reads the file's header.
    fn read_header<S: Source>(&mut self, source: &mut S) -> Result<OctetOrder, NextRecord>
        requires header { self.old.order ≡ None }
        requires bounded { self.old.taken ≤ max_input }
        ensures contents { Opens result (contents_left self.old (S.shown.octets source.old))
            (contents_left self.new (S.shown.octets source.new)) }
        ensures header { Heads result self.old self.new (S.shown.octets source.old)
            (S.shown.octets source.new) }
        ensures order { self.new.order ≡ order_found result }
        ensures number { self.new.number ≡ self.old.number }
        ensures over { self.new.over ≡ self.old.over }
        ensures grows { self.old.taken ≤ self.new.taken }
        ensures bounded { self.new.taken ≤ max_input }
        ensures read { Faults S.shown (answer_of result) source.old source.new }
        ensures never_falls { S.shown.faults source.old ≤ S.shown.faults source.new }
    {
        self.read_part(source, HEADER)?;
        self.judge()
    }

    /// Judges the header that was read, and stores the octet order that it gives.
    fn judge(&mut self) -> Result<OctetOrder, NextRecord>
        requires { length self.old.frame ≡ 24 }
        ensures judged { result ≡ order_or_fault self.old.frame }
        ensures stored { self.new ≡ record self.old { order = order_found result } }
    {
        let found = judge_header(self.frame.as_slice());
        self.order = found.ok();
        found
    }

    /// Reads a record, up to what keeps it from being one.
    fn read_frame<S: Source>(&mut self, source: &mut S, order: OctetOrder) -> Result<(), NextRecord>
        requires order { self.old.order ≡ Some order }
        requires bounded { self.old.taken ≤ max_input }
        ensures contents { Answers (answer_of result) self.old self.new (S.shown.octets source.old)
            (S.shown.octets source.new) }
        ensures number { self.new.number ≡ self.old.number }
        ensures over { self.new.over ≡ self.old.over }
        ensures consumes { ConsumesSome (answer_of result) self.old.taken self.new.taken }
        ensures bounded { self.new.taken ≤ max_input }
        ensures exhausted { Exhausts (answer_of result) (S.shown.octets source.new) }
        ensures waits { Waits (answer_of result) self.old self.new (S.shown.octets source.old) }
        ensures read { Faults S.shown (answer_of result) source.old source.new }
        ensures never_falls { S.shown.faults source.old ≤ S.shown.faults source.new }
    {
        if !self.has_more(source)? {
            return Err(NextRecord::End);
        }
        let size = self.read_length(source, order)?;
        if size > MAX_FRAME {
            return Err(NextRecord::BadRecord);
        }
        self.read_body(source, size)
    }

    /// Reads a record's time and the length of its frame.
    fn read_length<S: Source>(
        &mut self,
        source: &mut S,
        order: OctetOrder,
    ) -> Result<u32, NextRecord>
        requires bounded { self.old.taken ≤ max_input }
        ensures part { Parts result 12 self.old self.new (S.shown.octets source.old)
            (S.shown.octets source.new) }
        ensures length { IfOk result
            (λ size. size ≡ number order (take 4 (drop 8 self.new.frame))) }
        ensures preserves { Preserves self.old self.new }
        ensures grows { self.old.taken ≤ self.new.taken }
        ensures bounded { self.new.taken ≤ max_input }
        ensures read { Faults S.shown (answer_of result) source.old source.new }
        ensures never_falls { S.shown.faults source.old ≤ S.shown.faults source.new }
    {
        self.read_part(source, TO_LENGTH)?;
        Ok(order.number(&self.frame.as_slice()[8..12]))
    }

    /// Reads the length of a frame before it was cut, and the frame, which has so many octets.
    fn read_body<S: Source>(&mut self, source: &mut S, size: u32) -> Result<(), NextRecord>
        requires bounded { self.old.taken ≤ max_input }
        ensures part { Frames result size self.old self.new (S.shown.octets source.old)
            (S.shown.octets source.new) }
        ensures preserves { Preserves self.old self.new }
        ensures grows { self.old.taken ≤ self.new.taken }
        ensures bounded { self.new.taken ≤ max_input }
        ensures read { Faults S.shown (answer_of result) source.old source.new }
        ensures never_falls { S.shown.faults source.old ≤ S.shown.faults source.new }
    {
        self.read_part(source, FIRST_LENGTH)?;
        self.read_part(source, size)
    }

    /// Consumes so many octets, of which the frame stores the first 4,096. `CutFile`: the source ends before.
    /// `TooMuch`: the octet past the limit comes before.
    fn read_part<S: Source>(&mut self, source: &mut S, count: u32) -> Result<(), NextRecord>
        requires bounded { self.old.taken ≤ max_input }
        ensures size { OnOk result (length self.new.frame ≡ min count max_stored) }
        ensures part { Parts result count self.old self.new (S.shown.octets source.old)
            (S.shown.octets source.new) }
        ensures preserves { Preserves self.old self.new }
        ensures grows { self.old.taken ≤ self.new.taken }
        ensures bounded { self.new.taken ≤ max_input }
        ensures read { Faults S.shown (answer_of result) source.old source.new }
        ensures never_falls { S.shown.faults source.old ≤ S.shown.faults source.new }
    {
        self.drop_frame();
        let mut missing = count;
        while missing > 0 {
            if !self.has_more(source)? {
                return Err(NextRecord::CutFile);
            }
            let handed = self.consume_pending(missing);
            if handed == 0 {
                return Err(NextRecord::TooMuch);
            }
            missing -= handed;
        }
        Ok(())
    }

    /// Keeps nothing of the frame that was read last.
    fn drop_frame(&mut self)
        ensures { self.new ≡ record self.old { frame = [] } }
    {
        self.frame.clear();
    }

    /// Whether an octet is left. Reads if none is buffered.
    fn has_more<S: Source>(&mut self, source: &mut S) -> Result<bool, NextRecord>
        ensures preserves { Preserves self.old self.new }
        ensures consumed { self.new.taken ≡ self.old.taken }
        ensures frame { self.new.frame ≡ self.old.frame }
        ensures left { OnOk result (octets_left self.old (S.shown.octets source.old)
            ≡ octets_left self.new (S.shown.octets source.new)) }
        ensures pending { OnOk result (length self.old.held ≤ length self.new.held) }
        ensures some { result ≡ Ok true → 0 < length self.new.held }
        ensures none_pending { result ≡ Ok false → self.new.held ≡ [] }
        ensures none_left { result ≡ Ok false
            → S.shown.octets source.new ≡ nothing_known (S.shown.octets source.new) }
        ensures failed { IfErr result (λ answer. answer ≡ Read) }
        ensures spent { OnErr result (self.old.held ≡ []) }
        ensures read { Faults S.shown (answer_of result) source.old source.new }
        ensures never_falls { S.shown.faults source.old ≤ S.shown.faults source.new }
    {
        if !self.ahead.as_slice().is_empty() {
            return Ok(true);
        }
        match self.ahead.fill(source) {
            Ok(count) => Ok(count > 0),
            Err(_) => Err(NextRecord::Read),
        }
    }

    /// Consumes octets that it has buffered, at most so many and as many as pass no limit, and answers how many.
    fn consume_pending(&mut self, most: u32) -> u32
        ensures within_size { result ≤ most }
        ensures there { result ≤ length self.old.held }
        ensures consumed { self.new.taken ≡ self.old.taken + result }
        ensures pending { self.new.held ≡ drop result self.old.held }
        ensures stored { self.new.frame
            ≡ take max_stored (self.old.frame ++ take result self.old.held) }
        ensures stuck { result ≡ 0 → 0 < most → 0 < length self.old.held
            → max_input ≤ self.new.taken }
        ensures preserves { Preserves self.old self.new }
        ensures bounded { self.new.taken ≤ max_input }
    {
        let budget = (MAX_INPUT - self.taken).min(most) as usize;
        let held = self.ahead.as_slice();
        let count = held.len().min(budget);
        let kept = count.min(MAX_STORED - self.frame.len());
        self.frame.put(&held[..kept]);
        self.ahead.skip(count);
        self.taken += count as u32;
        count as u32
    }

    /// If the last answer was `Record`, what was stored of its frame: the first octets, at most 4,096.
    pub fn frame(&self) -> &[u8]
        ensures same { result.now ≡ self.now.frame }
        ensures bounded { length result.now ≤ max_stored }
    {
        self.frame.as_slice()
    }

    /// The number of the record last begun, from 1. It is 0 in the header.
    pub fn number(&self) -> u32
        ensures { result ≡ self.now.number }
    {
        self.number
    }

    /// True after every answer but `Record`.
    pub fn is_over(&self) -> bool
        ensures { result ≡ self.now.over }
    {
        self.over
    }
}
