//! The events of a run.

ghost use Rattle.std.specs.Prelude.{◌≡◌};

use crate::setup::{Party, Port};
use octet_lists::Injected;

/// What happens next: a delivery, the end of a timer, or a report of the lower layer.
#[derive(Drop, Debug)]
pub enum Event {
    /// Packet `number`, counted from 1 in the order of sending, arrives at its port.
    Deliver { number: u32 },
    /// The same, with the octet at `place` combined with `mask` by exclusive or.
    Alter { number: u32, place: u16, mask: u8 },
    /// The same, cut to its first `keep` octets.
    Cut { number: u32, keep: u16 },
    /// Any octets arrive at the port.
    Inject { port: Port, octets: Injected },
    /// The retransmission timer of the party ends.
    Timeout { party: Party },
    /// The pass-through's timer for the backend ends.
    AaaTimeout,
    /// The backend has no Request for the pass-through.
    AaaNoReq,
    /// The peer's lower layer is idle.
    Idle,
    /// The peer's lower layer reports success.
    AltAccept,
    /// The peer's lower layer reports failure.
    AltReject,
    /// The party begins a new conversation; the pass-through restarts.
    Restart { party: Party },
}

impl Event {
    /// An equal event.
    pub fn copy(&self) -> Event
        ensures { result ≡ self.now }
    {
        match self {
            Event::Deliver { number } => Event::Deliver { number: *number },
            Event::Alter {
                number,
                place,
                mask,
            } => Event::Alter {
                number: *number,
                place: *place,
                mask: *mask,
            },
            Event::Cut { number, keep } => Event::Cut {
                number: *number,
                keep: *keep,
            },
            Event::Inject { port, octets } => Event::Inject {
                port: *port,
                octets: octets.copy(),
            },
            Event::Timeout { party } => Event::Timeout { party: *party },
            Event::AaaTimeout => Event::AaaTimeout,
            Event::AaaNoReq => Event::AaaNoReq,
            Event::Idle => Event::Idle,
            Event::AltAccept => Event::AltAccept,
            Event::AltReject => Event::AltReject,
            Event::Restart { party } => Event::Restart { party: *party },
        }
    }
}
