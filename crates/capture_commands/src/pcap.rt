//! The command `pcap`: judges the tags of the EAP packets in a file of captured Ethernet frames.

ghost use Rattle.std.specs.Prelude.{◌≡◌, ◌<◌, ◌^◌, ℕ, List, Option, [], map, string_bytes, All};
ghost use Rattle.std.specs.Prelude.{IsTrue};
ghost use Rattle.login_setup.specs.Setup.{has_valid_key};
ghost use Rattle.eapol_capture.specs.Frames.{contents_of};
ghost use Rattle.eapol_capture.specs.Reading.{Exhausts};
ghost use Rattle.text_tables.specs.UserWords.{read_as};
ghost use Rattle.command_driver.specs.Answers.{Finishes, Drains, IsRefusal};
ghost use Rattle.command_driver.specs.Responding.{Responds, reading, never};
ghost use Rattle.capture_commands.specs.Pcap.{pcap_users, pcap_answer, is_to_peer, cut_text};
ghost use Rattle.capture_commands.specs.Pcap.{records_text, refused_record_text};
ghost use Rattle.capture_commands.specs.Pcap.{file_word, file_status, file_refusal, file_end};
ghost use Rattle.answer_text.specs.Writes.{Appends};

use crate::check::is_counted;
use answer_text::Piece::{Leading, Line, Number, Text};
use answer_text::{write_finding, write_pieces};
use capture_check::Judge;
use command_driver::Status;
use eapol_capture::{FrameContents, NextRecord, PcapReader, contents_of_frame};
use login_setup::Users;
use octet_io::{Failed, Sink, Source};
use text_tables::read_users;

/// The code of a Response (RFC 3748 section 4).
const RESPONSE: u8 = 2;

/// Adds the users that the words name, if they are `pcap` and users. False for all other words; some
/// users may have been added then.
pub fn read_pcap(words: &Vec<String>, users: &mut Users) -> bool
    requires { users.old ≡ [] }
    ensures { read_as result users.new ≡ pcap_users (map string_bytes words.now.items) }
{
    match words.as_slice() {
        [word, rest @ ..] if word.as_str() == "pcap" => read_users(rest, users),
        _ => false,
    }
}

/// True for a packet to the peer: any but a Response, by its first octet.
fn is_to_peer(octets: &[u8]) -> bool
    ensures { result ≡ is_to_peer octets.now }
{
    match octets.first() {
        Some(code) => *code != RESPONSE,
        None => true,
    }
}

/// What was found in a file so far: what counts of its packets, how many there were, and how many findings
/// count.
#[derive(Drop)]
pub struct PcapTotals {
    checker: Judge,
    packets: u32,
    findings: u32,
}

impl PcapTotals {
    ghost use Rattle.capture_commands.specs.PcapSteps.{record_step, nothing_found};

    /// Nothing was found yet.
    fn new() -> PcapTotals
        ensures { result ≡ nothing_found }
    {
        PcapTotals {
            checker: Judge::new(),
            packets: 0,
            findings: 0,
        }
    }

    /// Judges the record with this number.
    #[tactic(auto, unfolding(crate::specs::PcapSteps::record_step, answer_text::specs::Writes::Appends))]
    fn count_frame<W: Sink>(
        &mut self,
        users: &Users,
        sink: &mut W,
        number: u32,
        frame: &[u8],
    ) -> Result<(), Failed>
        requires keys { All (λ user. IsTrue (has_valid_key user)) users.now }
        requires packets { self.old.packets < 2 ^ 31 }
        requires findings { self.old.findings < 2 ^ 31 }
        ensures appends { Appends W.shown result sink.old sink.new
            (record_step users.now self.old number (contents_of frame.now)).text }
        ensures after { self.new
            ≡ (record_step users.now self.old number (contents_of frame.now)).after }
    {
        match contents_of_frame(frame) {
            FrameContents::Other => Ok(()),
            FrameContents::Cut => {
                self.findings += 1;
                write_cut(sink, number)
            }
            FrameContents::Eap(octets) => {
                let finding = self.checker.packet(users, is_to_peer(octets), octets);
                self.packets += 1;
                self.findings += u32::from(is_counted(&finding));
                write_finding(sink, number, &finding)
            }
        }
    }

    /// Handles the end of the file, if the record last begun has this number.
    fn close<W: Sink>(&self, sink: &mut W, number: u32, answer: NextRecord) -> Status
        ensures finishes { Finishes W.shown result sink.old sink.new
            (file_end number self.now.packets self.now.findings answer) }
        ensures drains { (left : Option (List ℕ)) → Exhausts answer left → Drains result left }
    {
        match answer {
            NextRecord::End => self.end(sink, number),
            _ => refuse_file(sink, number, answer),
        }
    }

    /// Writes how many records there were, and what was found in them.
    #[tactic(auto, unfolding(answer_text::specs::Writes::Appends))]
    fn end<W: Sink>(&self, sink: &mut W, number: u32) -> Status
        ensures finishes { Finishes W.shown result sink.old sink.new
            (file_end number self.now.packets self.now.findings NextRecord.End) }
    {
        match write_records(sink, number, self.packets, self.findings) {
            Ok(()) => {
                if self.findings == 0 {
                    Status::Done
                } else {
                    Status::Findings
                }
            }
            Err(_) => Status::WriteFault,
        }
    }
}

/// Writes that the packet in a record is cut.
#[tactic(auto, unfolding(crate::specs::Pcap::cut_text))]
fn write_cut<W: Sink>(sink: &mut W, number: u32) -> Result<(), Failed>
    ensures { Appends W.shown result sink.old sink.new (cut_text number) }
{
    write_pieces(sink, &[Leading(u64::from(number), b" eapol-cut\n")])
}

/// Writes the last line.
#[tactic(auto, unfolding(crate::specs::Pcap::records_text))]
fn write_records<W: Sink>(
    sink: &mut W,
    records: u32,
    packets: u32,
    findings: u32,
) -> Result<(), Failed>
    ensures { Appends W.shown result sink.old sink.new (records_text records packets findings) }
{
    write_pieces(
        sink,
        &[
            Number(b"records ", u64::from(records)),
            Number(b" eap ", u64::from(packets)),
            Line(b" findings ", u64::from(findings)),
        ],
    )
}

/// The word of a fault of a file.
fn word_of(answer: NextRecord) -> &'static str
    ensures { result.now ≡ file_word answer }
{
    match answer {
        NextRecord::Record => "Record",
        NextRecord::End => "End",
        NextRecord::CutFile => "CutFile",
        NextRecord::BadMagic => "BadMagic",
        NextRecord::BadVersion => "BadVersion",
        NextRecord::BadLink => "BadLink",
        NextRecord::BadRecord => "BadRecord",
        NextRecord::TooMuch => "TooMuch",
        NextRecord::Read => "Read",
    }
}

/// The status of a refused file.
fn status_of(answer: NextRecord) -> Status
    ensures status { result ≡ file_status answer }
    ensures refusal { IsRefusal result }
{
    match answer {
        NextRecord::TooMuch => Status::TooMuch,
        _ => Status::Refused,
    }
}

/// Writes the last line of a refused file, and ends with its status.
#[tactic(auto, unfolding(answer_text::specs::Writes::Appends))]
fn refuse_file<W: Sink>(sink: &mut W, number: u32, answer: NextRecord) -> Status
    ensures finishes { Finishes W.shown result sink.old sink.new (file_refusal number answer) }
    ensures drains { (left : Option (List ℕ)) → Drains result left }
{
    match write_refused_record(sink, number, word_of(answer)) {
        Ok(()) => status_of(answer),
        Err(_) => Status::WriteFault,
    }
}

#[tactic(auto, unfolding(crate::specs::Pcap::refused_record_text))]
fn write_refused_record<W: Sink>(sink: &mut W, number: u32, word: &str) -> Result<(), Failed>
    ensures { Appends W.shown result sink.old sink.new (refused_record_text number word.now) }
{
    write_pieces(
        sink,
        &[
            Number(b"refused record ", u64::from(number)),
            Text(b" "),
            Text(word.as_bytes()),
            Text(b"\n"),
        ],
    )
}

/// Reads a file of captured frames and writes the finding of each EAP packet in them, judged by the users.
/// The status is `Findings` if the file was read to its end and a packet is malformed, has a bad tag or is
/// cut.
pub fn judge_file<S: Source, W: Sink>(users: &Users, source: &mut S, sink: &mut W) -> Status
    requires { All (λ user. IsTrue (has_valid_key user)) users.now }
    ensures { Responds S.shown W.shown
        (reading (pcap_answer users.now) never) result source.old source.new sink.old sink.new }
{
    let mut reader = PcapReader::new();
    let mut found = PcapTotals::new();
    loop {
        match reader.next_record(source) {
            NextRecord::Record => {
                match found.count_frame(users, sink, reader.number(), reader.frame()) {
                    Ok(()) => {}
                    Err(_) => return Status::WriteFault,
                }
            }
            NextRecord::Read => return Status::ReadFault,
            answer => return found.close(sink, reader.number(), answer),
        }
    }
}
