//! The command `radius`: writes RADIUS packets that carry EAP, reads them and judges them.

ghost use Rattle.std.specs.Prelude.{◌≡◌, ◌≢◌, ◌≤◌, false, length};
ghost use Rattle.radius_carry.specs.Packet as packets;
ghost use Rattle.radius_carry.specs.Packet.{IsRadius};
ghost use Rattle.radius_carry.specs.Fault.{value_of};
ghost use Rattle.answer_text.specs.Writes.{Appends};
ghost use Rattle.command_driver.specs.Responding.{Responds, reading, never};
ghost use Rattle.capture_commands.specs.Radius.{radius_answer};
ghost use Rattle.capture_commands.specs.Radius.{code_of, good_or_bad, judgement_of, context_after};
ghost use Rattle.capture_commands.specs.Radius.{kind_word, judgement_word, packet_line, read_text};
ghost use Rattle.capture_commands.specs.Radius.{reply_judged, word_line};

use answer_text::Piece::{Hex, Number, Text};
use answer_text::{write_hex, write_pieces};
use command_driver::{Close, Command, Next, Status, Trouble, drive};
use octet_io::{Failed, Sink, Source};
use octet_lists::{Identity, Octets, Packet};
use radius_carry::{
    RadiusKind, RadiusView, eap_of, read_radius, reply_good, request_good, write_reply,
    write_request,
};
use request_text::{RadiusItem, RadiusReader, ReplyKind};

/// A request that replies are written and judged for.
#[derive(Clone, Copy)]
pub struct PendingRequest {
    id: u8,
    authenticator: [u8; 16],
}

/// What is found of a packet that was read.
#[derive(Clone, Copy, PartialEq, Eq, Debug)]
pub enum Judgement {
    Good,
    TagBad,
    /// A reply, if no request of its Identifier is kept.
    NoRequest,
}

/// A text of RADIUS packets that is being read: what has been read of it, the secret, and the last request
/// that was written or read as good.
#[derive(Drop)]
pub struct Radius {
    reader: RadiusReader,
    secret: Octets<64>,
    asked: Option<PendingRequest>,
}

/// Writes two words in one line.
#[tactic(auto, unfolding(crate::specs::Radius::word_line))]
fn write_words<'a, W: Sink>(sink: &mut W, word: &'a [u8], next: &'a [u8]) -> Result<(), Failed>
    ensures { Appends W.shown result sink.old sink.new (word_line word.now next.now) }
{
    write_pieces(sink, &[Text(word), Text(b" "), Text(next), Text(b"\n")])
}

/// The name of a kind of packet.
fn kind_word(kind: RadiusKind) -> &'static [u8]
    ensures { result.now ≡ kind_word (packets.number_of kind) }
{
    match kind {
        RadiusKind::Request => b"request",
        RadiusKind::Accept => b"accept",
        RadiusKind::Reject => b"reject",
        RadiusKind::Challenge => b"challenge",
    }
}

fn judgement_word(judgement: Judgement) -> &'static [u8]
    ensures { result.now ≡ judgement_word judgement }
{
    match judgement {
        Judgement::Good => b"good",
        Judgement::TagBad => b"tag-bad",
        Judgement::NoRequest => b"no-request",
    }
}

/// Writes the kind of a packet, its Identifier, its EAP packet and what is found of it, in one line.
#[tactic(auto, unfolding(crate::specs::Radius::read_text))]
fn write_read<'a, W: Sink>(
    sink: &mut W,
    kind: &'a [u8],
    id: u8,
    eap: &'a [u8],
    found: &'a [u8],
) -> Result<(), Failed>
    ensures { Appends W.shown result sink.old sink.new (read_text kind.now id eap.now found.now) }
{
    write_pieces(
        sink,
        &[
            Text(b"read "),
            Text(kind),
            Number(b" id ", u64::from(id)),
            Hex(b" eap ", eap),
            Text(b" "),
            Text(found),
            Text(b"\n"),
        ],
    )
}

/// Writes what a packet is, in one line.
#[tactic(auto, unfolding(radius_carry::specs::Fault::value_of))]
fn write_packet<W: Sink>(
    sink: &mut W,
    view: &RadiusView,
    judgement: Judgement,
) -> Result<(), Failed>
    requires { IsRadius (value_of view.now) view.now.whole.now }
    ensures { Appends W.shown result sink.old sink.new (packet_line (value_of view.now) judgement) }
{
    let eap = eap_of(view);
    write_read(
        sink,
        kind_word(view.kind),
        view.id,
        eap.as_slice(),
        judgement_word(judgement),
    )
}

/// The kind of packet of a kind of reply.
fn reply_kind(kind: ReplyKind) -> RadiusKind
    ensures code { packets.number_of result ≡ code_of kind }
    ensures reply { result ≢ RadiusKind.Request }
{
    match kind {
        ReplyKind::Accept => RadiusKind::Accept,
        ReplyKind::Reject => RadiusKind::Reject,
        ReplyKind::Challenge => RadiusKind::Challenge,
    }
}

/// What a packet is whose authenticators were tested.
fn good_or_bad(is_good: bool) -> Judgement
    ensures { result ≡ good_or_bad is_good }
{
    if is_good {
        Judgement::Good
    } else {
        Judgement::TagBad
    }
}

/// What a reply is, under the secret and after the request that is kept.
#[tactic(auto, unfolding(radius_carry::specs::Fault::value_of))]
fn judged_reply(secret: &[u8], asked: &Option<PendingRequest>, view: &RadiusView) -> Judgement
    requires secret { length secret.now ≤ 64 }
    requires radius { IsRadius (value_of view.now) view.now.whole.now }
    ensures { result ≡ reply_judged secret.now asked.now (value_of view.now) }
{
    match asked {
        Some(asked) if asked.id == view.id => {
            good_or_bad(reply_good(secret, &asked.authenticator, view))
        }
        _ => Judgement::NoRequest,
    }
}

impl Radius {
    ghost use Rattle.capture_commands.specs.Radius.{nothing_asked, reply_step, read_result_of};
    ghost use Rattle.capture_commands.specs.Radius.{item_result_of};
    ghost use Rattle.radius_carry.specs.Fault.{packet_of};
    ghost use Rattle.command_driver.specs.Commands.{AnswersLine};
    ghost use Rattle.request_text.specs.declared.radius_line.RadiusItem.TheVariants as item;

    /// Nothing has been read yet.
    pub fn new() -> Radius
        ensures { result ≡ nothing_asked }
    {
        Radius {
            reader: RadiusReader::new(),
            secret: Octets::new(),
            asked: None,
        }
    }

    /// What a packet is, under the secret and after the request that is kept. Keeps a request that is good.
    #[tactic(auto, unfolding(crate::specs::Radius::judgement_of, crate::specs::Radius::context_after, radius_carry::specs::Tags::is_good_request, radius_carry::specs::Fault::value_of))]
    fn judge(&mut self, view: &RadiusView) -> Judgement
        requires { IsRadius (value_of view.now) view.now.whole.now }
        ensures judged { result ≡ judgement_of self.old.secret self.old.asked (value_of view.now) }
        ensures stored { self.new ≡ record self.old {
          asked = context_after self.old.secret self.old.asked (value_of view.now);
        } }
    {
        match view.kind {
            RadiusKind::Request => {
                let is_good = request_good(self.secret.as_slice(), view);
                if is_good {
                    self.asked = Some(PendingRequest {
                        id: view.id,
                        authenticator: view.authenticator,
                    });
                }
                good_or_bad(is_good)
            }
            _ => judged_reply(self.secret.as_slice(), &self.asked, view),
        }
    }

    /// Writes a request and keeps it.
    #[tactic(auto, unfolding(answer_text::specs::Writes::Appends))]
    fn request<W: Sink>(
        &mut self,
        sink: &mut W,
        asked: PendingRequest,
        user: &Identity,
        state: &Octets<64>,
        eap: &Packet,
    ) -> Result<Next, Trouble>
        ensures answers { AnswersLine W.shown result sink.old sink.new
            (item_result_of self.old
            (item.Request asked.id asked.authenticator user.now state.now eap.now)) false self.new }
    {
        let packet = write_request(
            self.secret.as_slice(),
            asked.id,
            &asked.authenticator,
            user.as_slice(),
            state.as_slice(),
            eap.as_slice(),
        );
        self.asked = Some(asked);
        write_hex(sink, "request", packet.as_slice())?;
        Ok(Next::Proceed)
    }

    /// Writes a reply to the request that is kept.
    #[tactic(auto, unfolding(answer_text::specs::Writes::Appends))]
    fn reply<W: Sink>(
        &self,
        sink: &mut W,
        kind: ReplyKind,
        state: &Octets<64>,
        eap: &Packet,
    ) -> Result<Next, Trouble>
        ensures answers { AnswersLine W.shown result sink.old sink.new
            (reply_step self.now self.now.asked kind state.now eap.now) false self.now }
    {
        let written = match &self.asked {
            None => write_words(sink, b"reply", b"no-request"),
            Some(asked) => {
                let packet = write_reply(
                    self.secret.as_slice(),
                    reply_kind(kind),
                    asked.id,
                    &asked.authenticator,
                    state.as_slice(),
                    eap.as_slice(),
                );
                write_hex(sink, "reply", packet.as_slice())
            }
        };
        written?;
        Ok(Next::Proceed)
    }

    /// Reads a packet and says what it is.
    #[tactic(auto, unfolding(answer_text::specs::Writes::Appends))]
    fn read<W: Sink>(&mut self, sink: &mut W, octets: &[u8]) -> Result<Next, Trouble>
        ensures answers { AnswersLine W.shown result sink.old sink.new
            (read_result_of self.old (packet_of octets.now)) false self.new }
    {
        let written = match read_radius(octets) {
            Err(cause) => write_words(sink, b"read", cause.word().as_bytes()),
            Ok(view) => {
                let judgement = self.judge(&view);
                write_packet(sink, &view, judgement)
            }
        };
        written?;
        Ok(Next::Proceed)
    }
}

impl Command for Radius {
    ghost use Rattle.capture_commands.specs.declared.radius.Radius.{Radius};
    ghost use Rattle.capture_commands.specs.Radius.{radius_step, radius_closing, radius_lacks};

    ghost Seen = { Radius };

    ghost seen = { λ c. c };

    ghost line_result = { radius_step };

    ghost closing = { radius_closing };

    ghost lacks = { radius_lacks };

    ghost is_valid_after = { λ _ _. Unit {0} };

    #[tactic(auto, unfolding(crate::specs::Radius::radius_step))]
    fn handle_line<W: Sink>(&mut self, sink: &mut W, line: &[u8]) -> Result<Next, Trouble> {
        match self.reader.line(line) {
            Ok(
                RadiusItem::Request {
                    id,
                    authenticator,
                    user,
                    state,
                    eap,
                },
            ) => self.request(
                sink,
                PendingRequest { id, authenticator },
                &user,
                &state,
                &eap,
            ),
            Ok(RadiusItem::Reply { kind, state, eap }) => self.reply(sink, kind, &state, &eap),
            Ok(RadiusItem::Read(octets)) => self.read(sink, octets.as_slice()),
            Ok(RadiusItem::Secret(octets)) => {
                self.secret = octets;
                Ok(Next::Proceed)
            }
            Ok(RadiusItem::Nothing | RadiusItem::End) => Ok(Next::Proceed),
            Err(fault) => Ok(Next::Refuses(fault.word(), Status::Refused)),
        }
    }

    #[tactic(auto, unfolding(crate::specs::Radius::radius_closing))]
    fn close<W: Sink>(&self, _sink: &mut W) -> Result<Close, Failed> {
        match self.reader.finish() {
            Ok(()) => Ok(Close::Ends(Status::Done)),
            Err(fault) => Ok(Close::Misses(fault.word())),
        }
    }
}

/// Reads a text of RADIUS packets, writes requests and replies, and says what packets are. It allocates no memory.
#[tactic(auto, using(command_driver::proofs::Responding::never_lacks))]
pub fn answer_radius<S: Source, W: Sink>(source: &mut S, sink: &mut W) -> Status
    ensures { Responds S.shown W.shown (reading radius_answer never)
        result source.old source.new sink.old sink.new }
{
    drive(&mut Radius::new(), source, sink)
}
