//! An EAP-PSK message with its fields in one variant, as a caller reads and writes it.

ghost use Rattle.std.specs.Prelude.{◌≡◌, ◌≤◌, length, IfOk, IfErr, IsTrue};
ghost use Rattle.octet_lists.specs.Sizes.{max_name};
ghost use Rattle.eap_packet.specs.Packet.{value_with, has_type};
ghost use Rattle.eap_packet.specs.Packet as packets;
ghost use Rattle.eap_packet.specs.declared.cause.Cause.TheVariants.{PskShape};
ghost use Rattle.psk_messages.specs.Message.{AreFields, IsPsk, EncodesNone, identity_of};
ghost use Rattle.psk_messages.specs.Message.{message_of, spelled};
ghost use Rattle.psk_messages.specs.Plain.{fields_of, plain_value};
ghost use Rattle.psk_messages.specs.Reading.{read_of};

use crate::reading::read_psk_message;
use crate::view::{Channel, Psk1, Psk2, Psk3, Psk4, PskMessage};
use crate::writing::write_psk_into;
use eap_packet::{Cause, Code};
use octet_lists::Packet;

/// A message of EAP-PSK (RFC 4764 section 5), borrowed from its Type-Data. Of PCHANNEL, `sealed` is the octet that is
/// encrypted.
#[derive(Clone, Copy, Debug)]
pub enum PskView<'a> {
    P1 {
        rand_s: [u8; 16],
        id_s: &'a [u8],
    },
    P2 {
        rand_s: [u8; 16],
        rand_p: [u8; 16],
        mac: [u8; 16],
        id_p: &'a [u8],
    },
    P3 {
        rand_s: [u8; 16],
        mac: [u8; 16],
        nonce: u32,
        tag: [u8; 16],
        sealed: u8,
    },
    P4 {
        rand_s: [u8; 16],
        nonce: u32,
        tag: [u8; 16],
        sealed: u8,
    },
}

/// The view of a message.
fn view_of<'a>(message: &PskMessage<'a>) -> PskView<'a>
    ensures { fields_of result ≡ message_of message.now }
{
    match message {
        PskMessage::P1(first) => PskView::P1 {
            rand_s: first.rand_s,
            id_s: first.id_s,
        },
        PskMessage::P2(second) => PskView::P2 {
            rand_s: second.rand_s,
            rand_p: second.rand_p,
            mac: second.mac,
            id_p: second.id_p,
        },
        PskMessage::P3(third) => PskView::P3 {
            rand_s: third.rand_s,
            mac: third.mac,
            nonce: third.channel.nonce,
            tag: third.channel.tag,
            sealed: third.channel.sealed,
        },
        PskMessage::P4(fourth) => PskView::P4 {
            rand_s: fourth.rand_s,
            nonce: fourth.channel.nonce,
            tag: fourth.channel.tag,
            sealed: fourth.channel.sealed,
        },
    }
}

/// The message of a view.
fn message_in<'a>(view: &PskView<'a>) -> PskMessage<'a>
    ensures { message_of result ≡ fields_of view.now }
{
    match *view {
        PskView::P1 { rand_s, id_s } => PskMessage::P1(Psk1 { rand_s, id_s }),
        PskView::P2 {
            rand_s,
            rand_p,
            mac,
            id_p,
        } => PskMessage::P2(Psk2 {
            rand_s,
            rand_p,
            mac,
            id_p,
        }),
        PskView::P3 {
            rand_s,
            mac,
            nonce,
            tag,
            sealed,
        } => PskMessage::P3(Psk3 {
            rand_s,
            mac,
            channel: Channel { nonce, tag, sealed },
        }),
        PskView::P4 {
            rand_s,
            nonce,
            tag,
            sealed,
        } => PskMessage::P4(Psk4 {
            rand_s,
            channel: Channel { nonce, tag, sealed },
        }),
    }
}

/// The message that the Type-Data encodes, as [`read_psk_message`] says.
pub fn read_psk<'a>(body: &'a [u8]) -> Result<PskView<'a>, Cause>
    ensures message { plain_value result ≡ read_of body.now }
    ensures spelled { IfOk result (λ view. IsPsk (fields_of view) body.now) }
    ensures fields { IfOk result (λ view. AreFields (fields_of view)) }
    ensures cause { IfErr result (λ cause. cause ≡ PskShape) }
    ensures refused { IfErr result (λ cause. EncodesNone body.now) }
{
    Ok(view_of(&read_psk_message(body)?))
}

/// The Request or the Response of Type 47 with this Identifier whose Type-Data encodes the message.
pub fn write_psk(view: &PskView, code: Code, id: u8) -> Packet
    requires typed { IsTrue (has_type code) }
    requires identity { length (identity_of (fields_of view.now)) ≤ max_name }
    ensures { result ≡ packets.spelled (value_with code id 47 (spelled (fields_of view.now))) }
{
    let mut packet = Packet::new();
    write_psk_into(&mut packet, &message_in(view), code, id);
    packet
}
