//! What one call of the pass-through does, with the packet that it sends.

ghost use Rattle.std.specs.Prelude.{◌≡◌};
ghost use Rattle.pass_through.specs.PassTable.{Peer, Server, step_to};
ghost use Rattle.pass_through.specs.Plain.{plain_step};

use eap_method::Step;
use eap_packet::{Cause, Path};
use octet_lists::Packet;
use std::marker::Model;

/// What one call of the pass-through does: at most one of the two packets is there.
#[derive(Drop, Debug)]
pub struct PassStep {
    /// The states that it enters, in order.
    pub path: Path,
    /// Why it discards what came, None if it doesn't.
    pub cause: Option<Cause>,
    pub to_peer: Option<Packet>,
    pub to_server: Option<Packet>,
}

impl Model for PassStep {
    ghost use Rattle.pass_through.specs.Plain.{PlainStep};

    ghost Value = { PlainStep };

    ghost view = { λ s. record { path = s.path; cause = s.cause; to_peer = s.to_peer; to_server = s.to_server } };
}

impl PassStep {
    /// The step of a call whose packet goes to the peer.
    pub(crate) fn to_peer(step: Step, packet: Packet) -> PassStep
        ensures { result ≡ plain_step (step_to Peer step packet) }
    {
        PassStep {
            path: step.path,
            cause: step.cause,
            to_peer: if step.sends { Some(packet) } else { None },
            to_server: None,
        }
    }

    /// The step of a call whose packet goes to the server.
    pub(crate) fn to_server(step: Step, packet: Packet) -> PassStep
        ensures { result ≡ plain_step (step_to Server step packet) }
    {
        PassStep {
            path: step.path,
            cause: step.cause,
            to_peer: None,
            to_server: if step.sends { Some(packet) } else { None },
        }
    }
}
