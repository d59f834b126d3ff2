//! The program's one call.

ghost use Rattle.std.specs.Prelude.{◌≡◌, ℕ, List, Some, map, string_bytes};
ghost use Rattle.octet_io.specs.Shown.{HasRisen};
ghost use Rattle.command_driver.specs.Answers.{Finishes};
ghost use Rattle.world_commands.specs.Bulk.{bulk_of};
ghost use Rattle.eap_login.specs.Login.{is_alone, are_two, asked_by, asked_with_arguments};
ghost use Rattle.eap_login.specs.Login.{IsAnsweredUnread, usage_answer, usage_text, Completes};
ghost use Rattle.world_commands.specs.Headline.{HonestEndsAgree, WritesNeverBoth};
ghost use Rattle.world_commands.specs.Replay.{HasBoth};
ghost use Rattle.command_driver.specs.Responding.{Responds};
ghost use Rattle.world_commands.specs.SmoothTraces.{SmoothTracesAgree};
ghost use Rattle.answer_text.specs.Writes.{Appends};

use answer_text::write_line;
use capture_commands::{
    answer_keys, answer_radius, check_capture, decode_packets, judge_file, read_pcap,
};
use command_driver::Status;
use eap_method::{PeerMethod, ServerMethod};
use eap_world::Methods;
use end_commands::{answer_peer, answer_server};
use login_setup::Users;
use octet_io::{Failed, Sink, Source};
use std::alloc::Global;
use world_commands::{bulk_of, replay_scenario, run_bulk};

/// Answers to the words after the program's name: reads `source`, writes `sink`, and says how it
/// ended.
///
/// - `replay` reads a scenario and writes the trace of its run; `replay names` writes the octets of each
///   packet and the names of keys besides. Both allocate memory.
/// - `decode` reads packets in hex and writes what they are. It allocates no memory.
/// - `keys` reads requests for ciphers, MACs and keys and writes the answers. It allocates no memory.
/// - `check` reads a capture of packets with the keys of its users, and writes for each packet whether its
///   tags are right. It allocates no memory.
/// - `radius` reads a text of RADIUS packets that carry EAP, writes requests and replies under a secret, and
///   says of packets what they carry and whether they are good. It allocates no memory.
/// - `peer` and `server` run one end alone: each reads the end's settings and then its inputs, and writes what the end
///   does at each line before the next is read. They allocate no memory.
/// - `bulk N K` runs K conversations, 1 to 1,000, of the number N, 0 to 999,999, and writes their summary. It allocates
///   memory; the source stays as it was.
/// - `pcap NAME KIND HEX ..` reads a pcap file of Ethernet frames, and writes for each EAP packet in them whether its
///   tags are right under the keys of these users: 0 to 16 of them, each with a name of 1 to 253 octets from 21 to
///   7e, its method, 47 or 51, and its key in hex. It allocates no memory.
/// - All other words write the usage line; the source stays as it was.
///
/// Each of the two lists of `methods` has an object of EAP-PSK and one of EAP-GPSK.
pub fn eap_login<P: PeerMethod, M: ServerMethod, S: Source, W: Sink>(
    alloc: Global,
    words: &Vec<String>,
    source: &mut S,
    sink: &mut W,
    methods: Methods<P, M>,
) -> Status
    requires { HasBoth P.peer_shown M.server_shown methods }

    // What the words ask is answered: an input is read and its answer written, or, for `bulk N K` and for words that
    // are none of the forms, an answer is written and the source is as it was. If neither a read nor a write failed and
    // memory wasn't wanting, the whole text was written and the status is the answer's, with 0 or 7
    // nothing is left to read, but for `bulk N K`. Else a prefix of the text was. A fault comes only if its count rose
    // in this call, or is at its last value, and whenever it rose: none that is counted is ignored. Want of memory
    // comes only for `replay` and `replay names`, if the input's settings are whole, and for `bulk N K`.
    ensures responds { Responds S.shown W.shown
        (asked_by (map string_bytes words.now.items))
        result source.old source.new sink.old sink.new }

    // Whatever the scenario has delivered, lost, repeated, reordered, altered, reflected, injected or restarted: if
    // each tag that an end accepted was made earlier by the other end, as it is if the trace says `tags honest`, and if
    // nonces are fresh, as they are if it says `fresh yes`, two ends that are both in SUCCESS at the end of its run
    // agree in method, identities, suite, MSK and EMSK of their last conversations, which both policies allow;
    // the identities are their own names, the server's user has the peer's key, and by EAP-GPSK the suite is the first
    // of the server's that the peer allows. If no end has begun a second conversation, nonces need not be fresh, and
    // tags may have been made by either end. The run sent at most one packet more than it has events.
    ensures honest_ends_agree { (octets : List ℕ) → HonestEndsAgree octets }

    // If the input is a scenario of two ends that fit, whose events deliver packet 1, packet 2 and on, each once
    // and in order, at least as many as the login takes, the answer's status is 0, and its text ends with the lines
    // `tags honest`, `result agree` and `end`. So it does if all parties then begin again, in any order, and from the
    // last packet on each is delivered again once and in order, as often as that is done; and if the text is of the
    // second version the line before them is `fresh yes` exactly if each of these conversations had a new nonce.
    ensures smooth_traces_agree { SmoothTracesAgree }

    // On octets alone: no text written with status 0 has the lines `tags honest` and `result apart`, and either the
    // line `fresh yes` or no line that begins with `fresh`.
    ensures never_both { (octets : List ℕ) → S.shown.octets source.old ≡ Some octets
        → WritesNeverBoth result (W.shown.octets sink.old) (W.shown.octets sink.new) }

    // If the source shows its octets and neither a read nor a write failed, the status is the answer's, or memory was
    // wanting if it may be.
    ensures complete { (octets : List ℕ) → S.shown.octets source.old ≡ Some octets
        → (HasRisen S.shown source.old source.new → ⊥)
        → (HasRisen W.shown sink.old sink.new → ⊥)
        → Completes (map string_bytes words.now.items) octets result }
{
    respond(alloc, words, source, sink, methods)
}

/// The same, without the laws on all inputs.
fn respond<P: PeerMethod, M: ServerMethod, S: Source, W: Sink>(
    alloc: Global,
    words: &Vec<String>,
    source: &mut S,
    sink: &mut W,
    methods: Methods<P, M>,
) -> Status
    requires { HasBoth P.peer_shown M.server_shown methods }
    ensures { Responds S.shown W.shown
        (asked_by (map string_bytes words.now.items))
        result source.old source.new sink.old sink.new }
{
    if are_alone(words, "replay") {
        replay_scenario(alloc, false, source, sink, methods)
    } else if are_two(words, "replay", "names") {
        replay_scenario(alloc, true, source, sink, methods)
    } else if are_alone(words, "decode") {
        decode_packets(source, sink)
    } else if are_alone(words, "keys") {
        answer_keys(source, sink)
    } else if are_alone(words, "check") {
        check_capture(source, sink)
    } else if are_alone(words, "radius") {
        answer_radius(source, sink)
    } else if are_alone(words, "peer") {
        answer_peer(source, sink, methods.peer)
    } else if are_alone(words, "server") {
        answer_server(source, sink, methods.server)
    } else {
        answer_arguments(alloc, words, source, sink, methods)
    }
}

/// True if the words are this one alone.
fn are_alone(words: &Vec<String>, name: &str) -> bool
    ensures { result ≡ is_alone name.now (map string_bytes words.now.items) }
{
    match words.as_slice() {
        [word] => word.as_str() == name,
        _ => false,
    }
}

/// True if the words are these two.
fn are_two(words: &Vec<String>, first: &str, second: &str) -> bool
    ensures { result ≡ are_two first.now second.now (map string_bytes words.now.items) }
{
    match words.as_slice() {
        [word, next] => word.as_str() == first && next.as_str() == second,
        _ => false,
    }
}

/// Answers to words that may have arguments: to `pcap` and users by the findings of a file, to all others without
/// reading.
#[tactic(auto, using(capture_commands::proofs::PcapUsers::pcap_keys))]
fn answer_arguments<P: PeerMethod, M: ServerMethod, S: Source, W: Sink>(
    alloc: Global,
    words: &Vec<String>,
    source: &mut S,
    sink: &mut W,
    methods: Methods<P, M>,
) -> Status
    requires { HasBoth P.peer_shown M.server_shown methods }
    ensures { Responds S.shown W.shown
        (asked_with_arguments (map string_bytes words.now.items))
        result source.old source.new sink.old sink.new }
{
    let mut users = Users::new();
    if read_pcap(words, &mut users) {
        judge_file(&users, source, sink)
    } else {
        answer_unread(alloc, words, sink, methods)
    }
}

/// Answers to words that read no input: to `bulk N K` by a summary, to all others by the usage line.
fn answer_unread<P: PeerMethod, M: ServerMethod, W: Sink>(
    alloc: Global,
    words: &Vec<String>,
    sink: &mut W,
    methods: Methods<P, M>,
) -> Status
    requires { HasBoth P.peer_shown M.server_shown methods }
    ensures { IsAnsweredUnread W.shown (bulk_of (map string_bytes words.now.items))
        result sink.old sink.new }
{
    match bulk_of(words) {
        Some(asked) => run_bulk(alloc, asked, sink, methods),
        None => show_usage(sink),
    }
}

/// Writes the usage line.
#[tactic(auto, unfolding(answer_text::specs::Writes::Appends))]
fn show_usage<W: Sink>(sink: &mut W) -> Status
    ensures { Finishes W.shown result sink.old sink.new usage_answer }
{
    match write_usage(sink) {
        Ok(()) => Status::Usage,
        Err(_) => Status::WriteFault,
    }
}

#[tactic(auto, unfolding(crate::specs::Login::usage_text))]
fn write_usage<W: Sink>(sink: &mut W) -> Result<(), Failed>
    ensures { Appends W.shown result sink.old sink.new usage_text }
{
    write_line(
        sink,
        b"usage: eap_login replay | replay names | decode | keys | check | bulk N K | radius | pcap USERS | peer | server",
    )
}
