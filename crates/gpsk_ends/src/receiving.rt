//! The message in the Type-Data that is received.

ghost use Rattle.std.specs.Prelude.{◌≡◌, ◌≤◌, length, option_map, IfOk};
ghost use Rattle.octet_lists.specs.Suite.{ks_of};
ghost use Rattle.eap_packet.specs.Packet.{max_type_data};
ghost use Rattle.gpsk_messages.specs.Message.{message_of, read_value};
ghost use Rattle.gpsk_messages.specs.Reading.{read_of};
ghost use Rattle.gpsk_ends.specs.Classified.{IsReceived};

use eap_packet::Cause;
use gpsk_messages::{GpskMessage, read_gpsk_message};
use octet_lists::Suite;

/// The message that the Type-Data encodes; `suite` is the login's once that is chosen.
#[tactic(auto, using(crate::proofs::Pieces::ks_small))]
pub(crate) fn receive<'a>(body: &'a [u8], suite: Option<Suite>) -> Result<GpskMessage<'a>, Cause>
    requires { length body.now ≤ max_type_data }
    ensures message { read_value result ≡ read_of (option_map ks_of suite) body.now }
    ensures sound { IfOk result (λ view. IsReceived (message_of view) body.now) }
{
    match suite {
        None => read_gpsk_message(body, None),
        Some(suite) => read_gpsk_message(body, Some(suite.ks() as u8)),
    }
}
