//! The result of an event.

ghost use Rattle.std.specs.Prelude.{◌≡◌, option_map};
ghost use Rattle.eap_world.specs.World.{if_sent, number_of, packet_octets};

use eap_method::Report;
use eap_packet::{Cause, Path};
use login_setup::{Party, Port};
use octet_lists::Packet;

/// Why an event did nothing. If several apply, the first in this order is reported.
#[derive(Clone, Copy, PartialEq, Eq, Debug)]
pub enum Skip {
    /// The event's port or party isn't there.
    NoParty,
    /// No packet of that number was sent so far.
    Unsent,
    /// The place isn't below the packet's length, or more octets are kept than it has.
    Place,
    /// The party has ended.
    Ended,
    /// The party has no such timer running.
    NoTimer,
    /// The end has no nonce left with which it could begin a new conversation.
    NoNonce,
}

/// A packet that was sent. The world shows its octets.
#[derive(Clone, Copy, PartialEq, Eq, Debug)]
pub struct SentNumber {
    /// Its number, counted from 1 in the order of sending; a packet that is sent again gets another.
    pub number: u32,
    /// The port that it goes to.
    pub port: Port,
}

/// A report that an end has for the first time.
#[derive(Drop, Debug)]
pub struct Named {
    /// The peer or the server.
    pub party: Party,
    pub report: Report,
}

/// The result of the start or of an event.
#[derive(Drop, Debug)]
pub struct Brief {
    /// The event's number, from 1; 0 is the start.
    pub event: u32,
    /// The party that acted, None if the event was skipped.
    pub party: Option<Party>,
    /// The states of RFC 4137 that it entered; none if the event was skipped or the party had ended.
    pub path: Path,
    /// Why it discarded what came, None if it didn't.
    pub cause: Option<Cause>,
    /// Why the event was skipped, None if it wasn't.
    pub skip: Option<Skip>,
    /// What it sent, None if it sent nothing.
    pub sent: Option<SentNumber>,
    /// The report that the party first has after it, None if it has none or had it before.
    pub named: Option<Named>,
}

/// A packet that was sent, with its octets.
#[derive(Drop, Debug)]
pub struct SentPacket {
    /// Its number, counted from 1 in the order of sending; a packet that is sent again gets another.
    pub number: u32,
    /// The port that it goes to.
    pub port: Port,
    pub packet: Packet,
}

/// The result of the start or of an event, with the packet that was sent.
#[derive(Drop, Debug)]
pub struct Told {
    /// The event's number, from 1; 0 is the start.
    pub event: u32,
    /// The party that acted, None if the event was skipped.
    pub party: Option<Party>,
    /// The states of RFC 4137 that it entered.
    pub path: Path,
    /// Why it discarded what came, None if it didn't.
    pub cause: Option<Cause>,
    /// Why the event was skipped, None if it wasn't.
    pub skip: Option<Skip>,
    /// What it sent, None if it sent nothing.
    pub sent: Option<SentPacket>,
    /// The report that the party first has after it.
    pub named: Option<Named>,
}

/// How many events there were, the start not among them, and how many of them did what.
#[derive(Clone, Copy, PartialEq, Eq, Debug)]
pub struct Counts {
    /// All events, the skipped ones too: at most 1,000,000.
    pub events: u32,
    /// Those that delivered octets to a party.
    pub deliveries: u32,
    /// Those whose octets the party discarded.
    pub discards: u32,
}

/// What was sent with its octets; none if nothing was.
pub(crate) fn sent_with(sent: Option<SentNumber>, packet: Packet) -> Option<SentPacket>
    ensures number { option_map number_of result ≡ sent }
    ensures octets { packet_octets result ≡ if_sent sent packet }
{
    match sent {
        None => None,
        Some(SentNumber { number, port }) => Some(SentPacket {
            number,
            port,
            packet,
        }),
    }
}
