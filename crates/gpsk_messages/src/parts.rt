//! The MAC of a message, and the octets that it covers.

ghost use Rattle.std.specs.Prelude.{◌≡◌, ◌≤◌, length};
ghost use Rattle.gpsk_messages.specs.Message.{message_of, spelled, mac_of, covered_of};

use crate::view::GpskMessage;

/// The MAC of a message, empty if it has none.
pub fn mac_part<'a>(view: &GpskMessage<'a>) -> &'a [u8]
    ensures { result.now ≡ mac_of (message_of view.now) }
{
    match view {
        GpskMessage::M1(_) | GpskMessage::Fail { .. } => &[],
        GpskMessage::M2(gpsk2) => gpsk2.mac,
        GpskMessage::M3(gpsk3) => gpsk3.mac,
        GpskMessage::M4(gpsk4) => gpsk4.mac,
        GpskMessage::ProtectedFail { mac, .. } => mac,
    }
}

/// The octets that a message's MAC covers: those after the OP-Code up to the MAC.
#[tactic(auto, using(crate::proofs::MacParts::covered_start, crate::proofs::MacParts::covered_middle))]
pub fn covered_part<'a>(view: &GpskMessage, body: &'a [u8]) -> &'a [u8]
    requires { body.now ≡ spelled (message_of view.now) }
    ensures covered { result.now ≡ covered_of (message_of view.now) }
    ensures size { length result.now ≤ length body.now }
{
    &body[1..body.len() - mac_part(view).len()]
}
