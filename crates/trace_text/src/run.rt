//! The trace of a run: lines of words, each ended by LF. States have their names of RFC 4137, packets the
//! fields of RFC 3748 section 4.

ghost use Rattle.std.specs.Prelude.{◌≡◌, Some, slice_index, [], ◌∷◌, codes, decimal};
ghost use Rattle.std.specs.List.{concat};
ghost use Rattle.answer_text.specs.Writes.{Appends, Puts};
ghost use Rattle.trace_text.specs.Run.{party_word, port_word, skip_word, code_word, party_text};
ghost use Rattle.trace_text.specs.Run.{sent_text, octets_text, key_names_line, keys_line};
ghost use Rattle.trace_text.specs.Run.{keys_text, acted_text, skip_text};
ghost use Rattle.trace_text.specs.Run.{told_text, peer_start_text, server_start_text, start_text};
ghost use Rattle.trace_text.specs.Run.{end_state_text, counts_text, fresh_text, freshness_shown};
ghost use Rattle.trace_text.specs.Run.{tags_text, verdict_word};
ghost use Rattle.trace_text.specs.Run.{result_text, end_text_of, end_text, pass_state_line};
ghost use Rattle.trace_text.specs.Run.{state_line};
ghost use Rattle.eap_world.specs.World.{brief_of, now_of, packet_octets};

use answer_text::Piece::{Hex, Leading, Line, Number, Text};
use answer_text::{
    LineBuffer, put_path, put_pieces, send, write_cause, write_nothing, write_pieces,
};
use eap_method::{PeerMethod, ServerMethod};
use eap_packet::{Path, State};
use eap_world::{Brief, Counts, Named, SentNumber, Skip, Told, Verdict, World};
use login_keys::key_name;
use login_setup::{Mode, Party, Port};
use octet_io::{Failed, Sink};
use tag_book::TagsVerdict;

fn name_of_party(party: Party) -> &'static str
    ensures { result.now ≡ party_word party }
{
    match party {
        Party::Peer => "peer",
        Party::Pass => "pass",
        Party::Server => "server",
    }
}

fn name_of_port(port: Port) -> &'static str
    ensures { result.now ≡ port_word port }
{
    match port {
        Port::Peer => "peer",
        Port::Server => "server",
        Port::PassPeer => "pass-peer",
        Port::PassServer => "pass-server",
    }
}

fn name_of_skip(skip: Skip) -> &'static str
    ensures { result.now ≡ skip_word skip }
{
    match skip {
        Skip::NoParty => "NoParty",
        Skip::Unsent => "Unsent",
        Skip::Place => "Place",
        Skip::Ended => "Ended",
        Skip::NoTimer => "NoTimer",
        Skip::NoNonce => "NoNonce",
    }
}

/// The name of a packet's Code (RFC 3748 section 4).
fn name_of_code(code: u8) -> &'static str
    ensures { result.now ≡ code_word code }
{
    match code {
        1 => "request",
        2 => "response",
        3 => "success",
        _ => "failure",
    }
}

fn name_of_verdict(verdict: Verdict) -> &'static str
    ensures { result.now ≡ verdict_word verdict }
{
    match verdict {
        Verdict::Agree => "agree",
        Verdict::Apart => "apart",
        Verdict::Unfinished => "open",
    }
}

/// The octet at a place, 0 past the end.
fn octet_at(octets: &[u8], place: usize) -> u8
    ensures { result ≡ slice_index octets.now place }
{
    match octets.get(place) {
        None => 0,
        Some(octet) => *octet,
    }
}

/// Puts the event's number and the party.
fn put_head<W: Sink>(
    sink: &mut W,
    line: &mut LineBuffer,
    event: u32,
    party: Party,
) -> Result<(), Failed>
    ensures { Puts W.shown result sink.old sink.new line.old line.new
        (concat (decimal event ∷ codes " " ∷ party_word party ∷ [])) }
{
    put_pieces(
        sink,
        line,
        &[
            Leading(u64::from(event), b" "),
            Text(name_of_party(party).as_bytes()),
        ],
    )
}

/// Puts the line of a party, with the states that it entered.
#[tactic(auto, using(answer_text::proofs::Putting::puts_both, answer_text::proofs::Putting::puts_front))]
fn put_party<W: Sink>(
    sink: &mut W,
    line: &mut LineBuffer,
    event: u32,
    party: Party,
    path: &[State],
) -> Result<(), Failed>
    ensures { Puts W.shown result sink.old sink.new line.old line.new
        (party_text event (Some party) path.now) }
{
    put_head(sink, line, event, party)?;
    put_path(sink, line, path)
}

/// Writes the line of the party that acted, with the states that it entered.
#[tactic(auto, using(answer_text::proofs::Putting::appends_sent, answer_text::proofs::Putting::appends_cut))]
fn write_party<W: Sink>(
    sink: &mut W,
    event: u32,
    party: Option<Party>,
    path: &[State],
) -> Result<(), Failed>
    ensures { Appends W.shown result sink.old sink.new (party_text event party path.now) }
{
    let Some(party) = party else {
        return write_nothing(sink);
    };
    let mut line = LineBuffer::new();
    put_party(sink, &mut line, event, party, path)?;
    send(sink, &mut line)
}

/// Writes the line of the packet that was sent, if there was one: its number and port, then its Code,
/// Identifier, Type and length in octets. A Success and a Failure have no Type (RFC 3748 section 4.2).
fn write_sent<W: Sink>(
    sink: &mut W,
    event: u32,
    octets: &[u8],
    sent: &Option<SentNumber>,
) -> Result<(), Failed>
    ensures { Appends W.shown result sink.old sink.new (sent_text event octets.now sent.now) }
{
    let Some(sent) = sent else {
        return write_nothing(sink);
    };
    let code = octet_at(octets, 0);
    let has_type = code <= 2;
    let kind = octet_at(octets, 4);
    write_pieces(
        sink,
        &[
            Leading(u64::from(event), b" sent "),
            Leading(u64::from(sent.number), b" to "),
            Text(name_of_port(sent.port).as_bytes()),
            Text(b" "),
            Text(name_of_code(code).as_bytes()),
            Number(b" ", u64::from(octet_at(octets, 1))),
            if has_type {
                Number(b" type ", u64::from(kind))
            } else {
                Text(b"")
            },
            Line(b" length ", octets.len() as u64),
        ],
    )
}

/// Writes all octets of the packet that was sent in hex, in one line, if there was one and names are asked for.
fn write_octets<W: Sink>(
    sink: &mut W,
    event: u32,
    octets: &[u8],
    sent: &Option<SentNumber>,
    names: bool,
) -> Result<(), Failed>
    ensures { Appends W.shown result sink.old sink.new
        (octets_text names event octets.now sent.now) }
{
    match sent {
        Some(_) if names => write_pieces(
            sink,
            &[
                Leading(u64::from(event), b" octets "),
                Hex(b"", octets),
                Text(b"\n"),
            ],
        ),
        _ => write_nothing(sink),
    }
}

/// Writes the names of the keys that a party reports, in one line.
fn write_keys_line<W: Sink>(sink: &mut W, event: u32, named: &Named) -> Result<(), Failed>
    ensures { Appends W.shown result sink.old sink.new (keys_line event named.now) }
{
    let msk = key_name(&named.report.msk);
    let emsk = key_name(&named.report.emsk);
    write_key_names(sink, event, name_of_party(named.party), &msk, &emsk)
}

/// Writes the names of a party's keys, in one line.
fn write_key_names<'a, W: Sink>(
    sink: &mut W,
    event: u32,
    party: &'a str,
    msk: &'a [u8],
    emsk: &'a [u8],
) -> Result<(), Failed>
    ensures { Appends W.shown result sink.old sink.new
        (key_names_line event party.now msk.now emsk.now) }
{
    write_pieces(
        sink,
        &[
            Leading(u64::from(event), b" keys "),
            Text(party.as_bytes()),
            Hex(b" msk ", msk),
            Hex(b" emsk ", emsk),
            Text(b"\n"),
        ],
    )
}

/// Writes the names of the keys, if a party first reports them and names are asked for.
fn write_keys<W: Sink>(
    sink: &mut W,
    event: u32,
    named: &Option<Named>,
    names: bool,
) -> Result<(), Failed>
    ensures { Appends W.shown result sink.old sink.new (keys_text names event named.now) }
{
    match named {
        Some(named) if names => write_keys_line(sink, event, named),
        _ => write_nothing(sink),
    }
}

/// Writes the lines of an event: of the party that acted, of a discard, and of the packet that was sent,
/// which has these octets. If names are asked for, they follow in hex, and the names of the keys that the
/// party first reports. A skipped event has one line alone. `Failed`: a write failed, and a prefix of the
/// lines was appended.
#[tactic(auto, unfolding(crate::specs::Run::told_text))]
pub fn write_event_brief<W: Sink>(
    sink: &mut W,
    told: &Brief,
    octets: &[u8],
    names: bool,
) -> Result<(), Failed>
    ensures { Appends W.shown result sink.old sink.new (told_text names octets.now told.now) }
{
    match told.skip {
        None => write_acted(sink, told, octets, names),
        Some(skip) => write_skip(sink, told.event, skip),
    }
}

/// Writes the lines of an event that wasn't skipped.
#[tactic(auto, using(answer_text::proofs::Fronts::appends_both, answer_text::proofs::Fronts::appends_front))]
fn write_acted<W: Sink>(
    sink: &mut W,
    told: &Brief,
    octets: &[u8],
    names: bool,
) -> Result<(), Failed>
    ensures { Appends W.shown result sink.old sink.new (acted_text names octets.now told.now) }
{
    write_party(sink, told.event, told.party, told.path.as_slice())?;
    write_cause(sink, told.event, told.cause)?;
    write_sent(sink, told.event, octets, &told.sent)?;
    write_octets(sink, told.event, octets, &told.sent, names)?;
    write_keys(sink, told.event, &told.named, names)
}

/// Writes the line of a skipped event.
fn write_skip<W: Sink>(sink: &mut W, event: u32, skip: Skip) -> Result<(), Failed>
    ensures { Appends W.shown result sink.old sink.new (skip_text event skip) }
{
    write_pieces(
        sink,
        &[
            Leading(u64::from(event), b" skip "),
            Text(name_of_skip(skip).as_bytes()),
            Text(b"\n"),
        ],
    )
}

/// Writes the lines of an event, as [`write_event_brief`], of a result that has its packet.
pub fn write_told<W: Sink>(sink: &mut W, told: &Told, names: bool) -> Result<(), Failed>
    ensures { Appends W.shown result sink.old sink.new
        (told_text names (packet_octets told.now.sent) (brief_of told.now)) }
{
    write_event_brief(sink, &brief_of(told), octets_sent(told), names)
}

/// The result without the octets of its packet.
fn brief_of(told: &Told) -> Brief
    ensures { result ≡ brief_of told.now }
{
    Brief {
        event: told.event,
        party: told.party,
        path: path_copy(&told.path),
        cause: told.cause,
        skip: told.skip,
        sent: told.sent.as_ref().map(|sent| SentNumber {
            number: sent.number,
            port: sent.port,
        }),
        named: told.named.as_ref().map(|named| Named {
            party: named.party,
            report: named.report.copy(),
        }),
    }
}

/// An equal path.
fn path_copy(path: &Path) -> Path
    ensures { result ≡ path.now }
{
    let mut copied = Path::new();
    for state in path.as_slice() {
        copied.push(*state);
    }
    copied
}

/// The octets of the packet that was sent.
fn octets_sent(told: &Told) -> &[u8]
    ensures { result.now ≡ packet_octets told.now.sent }
{
    match &told.sent {
        None => &[],
        Some(sent) => sent.packet.as_slice(),
    }
}

/// Writes the lines of the start, as [`write_start_brief`], of a result that has its packet.
pub fn write_start<W: Sink>(
    sink: &mut W,
    mode: Mode,
    told: &Told,
    names: bool,
) -> Result<(), Failed>
    ensures { Appends W.shown result sink.old sink.new
        (start_text mode names (packet_octets told.now.sent) (brief_of told.now)) }
{
    write_start_brief(sink, mode, &brief_of(told), octets_sent(told), names)
}

/// Writes the line of the peer's INITIALIZE (RFC 4137 section 4.5).
#[tactic(auto, unfolding(crate::specs::Run::peer_start_text))]
fn write_peer_start<W: Sink>(sink: &mut W) -> Result<(), Failed>
    ensures { Appends W.shown result sink.old sink.new peer_start_text }
{
    write_pieces(sink, &[Text(b"0 peer INITIALIZE IDLE\n")])
}

/// Writes the line of a server behind a pass-through, which is in INITIALIZE (RFC 4137 section 6); none
/// of one that answers by itself.
#[tactic(auto, using(answer_text::proofs::Fronts::appends_none), unfolding(crate::specs::Run::server_start_text))]
fn write_server_start<W: Sink>(sink: &mut W, mode: Mode) -> Result<(), Failed>
    ensures { Appends W.shown result sink.old sink.new (server_start_text mode) }
{
    match mode {
        Mode::Alone => Ok(()),
        Mode::Through => write_pieces(sink, &[Text(b"0 server INITIALIZE\n")]),
    }
}

/// Writes the lines of the start, event 0, in this mode: the peer begins, then the result of the start of
/// whoever asks for the identity, with the octets of the packet if names are asked for; through a pass-through
/// the server waits. `Failed`: a write failed, and a prefix of the lines was appended.
#[tactic(auto, using(answer_text::proofs::Fronts::appends_both, answer_text::proofs::Fronts::appends_front))]
pub fn write_start_brief<W: Sink>(
    sink: &mut W,
    mode: Mode,
    told: &Brief,
    octets: &[u8],
    names: bool,
) -> Result<(), Failed>
    ensures { Appends W.shown result sink.old sink.new (start_text mode names octets.now told.now) }
{
    write_peer_start(sink)?;
    write_event_brief(sink, told, octets, names)?;
    write_server_start(sink, mode)
}

/// Writes the lines of the end: the state of each party, the counts, and the verdicts. `Failed`: a write
/// failed, and a prefix of the lines was appended.
#[tactic(auto, unfolding(crate::specs::Run::end_text_of), using(answer_text::proofs::Fronts::appends_both, answer_text::proofs::Fronts::appends_front))]
pub fn write_end_of<W: Sink>(
    sink: &mut W,
    peer: State,
    pass: Option<State>,
    server: State,
    counts: Counts,
    fresh: Option<bool>,
    tags: TagsVerdict,
    verdict: Verdict,
) -> Result<(), Failed>
    ensures { Appends W.shown result sink.old sink.new
        (end_text_of peer pass server counts fresh tags verdict) }
{
    write_end_state(sink, peer, pass, server)?;
    write_counts(sink, counts)?;
    write_fresh(sink, fresh)?;
    write_tags(sink, tags)?;
    write_result(sink, verdict)
}

/// Writes the states of the parties.
#[tactic(auto, using(answer_text::proofs::Fronts::appends_both, answer_text::proofs::Fronts::appends_front))]
fn write_end_state<W: Sink>(
    sink: &mut W,
    peer: State,
    pass: Option<State>,
    server: State,
) -> Result<(), Failed>
    ensures { Appends W.shown result sink.old sink.new (end_state_text peer pass server) }
{
    write_state(sink, b"state peer ", peer)?;
    write_pass_state(sink, pass)?;
    write_state(sink, b"state server ", server)
}

/// Writes the state of a party.
#[tactic(auto, unfolding(crate::specs::Run::state_line))]
fn write_state<'a, W: Sink>(sink: &mut W, of: &'a [u8], state: State) -> Result<(), Failed>
    ensures { Appends W.shown result sink.old sink.new (state_line of.now state) }
{
    write_pieces(
        sink,
        &[Text(of), Text(state.word().as_bytes()), Text(b"\n")],
    )
}

/// Writes the state of the pass-through, if there is one.
#[tactic(auto, using(answer_text::proofs::Fronts::appends_none), unfolding(crate::specs::Run::pass_state_line))]
fn write_pass_state<W: Sink>(sink: &mut W, pass: Option<State>) -> Result<(), Failed>
    ensures { Appends W.shown result sink.old sink.new (pass_state_line pass) }
{
    match pass {
        None => Ok(()),
        Some(pass) => write_state(sink, b"state pass ", pass),
    }
}

/// Writes how many events, deliveries and discards there were.
#[tactic(auto, unfolding(crate::specs::Run::counts_text))]
fn write_counts<W: Sink>(sink: &mut W, counts: Counts) -> Result<(), Failed>
    ensures { Appends W.shown result sink.old sink.new (counts_text counts) }
{
    write_pieces(
        sink,
        &[
            Line(b"events ", u64::from(counts.events)),
            Line(b"deliveries ", u64::from(counts.deliveries)),
            Line(b"discards ", u64::from(counts.discards)),
        ],
    )
}

/// Writes whether each conversation began with a fresh nonce; nothing for None.
#[tactic(auto, unfolding(crate::specs::Run::fresh_text))]
fn write_fresh<W: Sink>(sink: &mut W, fresh: Option<bool>) -> Result<(), Failed>
    ensures { Appends W.shown result sink.old sink.new (fresh_text fresh) }
{
    match fresh {
        None => write_pieces(sink, &[]),
        Some(true) => write_pieces(sink, &[Text(b"fresh yes\n")]),
        Some(false) => write_pieces(sink, &[Text(b"fresh no\n")]),
    }
}

/// Whether each conversation began with a fresh nonce; None for a scenario of version 1, whose trace doesn't say it.
fn freshness_shown<P: PeerMethod, S: ServerMethod>(world: &World<P, S>) -> Option<bool>
    ensures { result ≡ freshness_shown (now_of P.peer_shown S.server_shown world.now) }
{
    if world.version() == 2 {
        Some(world.fresh())
    } else {
        None
    }
}

/// Writes whether each accepted tag was made earlier by the other end, and else the event of the first
/// that wasn't.
#[tactic(auto, unfolding(crate::specs::Run::tags_text))]
fn write_tags<W: Sink>(sink: &mut W, tags: TagsVerdict) -> Result<(), Failed>
    ensures { Appends W.shown result sink.old sink.new (tags_text tags) }
{
    match tags {
        TagsVerdict::Honest => write_pieces(sink, &[Text(b"tags honest\n")]),
        TagsVerdict::Broken(event) => write_pieces(
            sink,
            &[Line(b"tags broken ", u64::from(event))],
        ),
    }
}

/// Writes the verdict on the login, and the last line.
#[tactic(auto, unfolding(crate::specs::Run::result_text))]
fn write_result<W: Sink>(sink: &mut W, verdict: Verdict) -> Result<(), Failed>
    ensures { Appends W.shown result sink.old sink.new (result_text verdict) }
{
    write_pieces(
        sink,
        &[
            Text(b"result "),
            Text(name_of_verdict(verdict).as_bytes()),
            Text(b"\n"),
            Text(b"end\n"),
        ],
    )
}

/// Writes the lines of the end: the state of each party, the counts, whether nonces
/// were fresh, and the two verdicts. `Failed`: a write
/// failed, and a prefix of the lines was appended.
pub fn write_end<W: Sink, P: PeerMethod, S: ServerMethod>(
    sink: &mut W,
    world: &World<P, S>,
) -> Result<(), Failed>
    ensures { Appends W.shown result sink.old sink.new
        (end_text (now_of P.peer_shown S.server_shown world.now)) }
{
    write_end_of(
        sink,
        world.peer_state(),
        world.pass_state(),
        world.server_state(),
        world.counts(),
        freshness_shown(world),
        world.tags(),
        world.result(),
    )
}
