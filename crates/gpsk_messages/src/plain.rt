//! An EAP-GPSK message with its fields in one variant, as a caller reads and writes it.

ghost use Rattle.std.specs.Prelude.{◌≡◌, ◌≤◌, ◌+◌, IfOk, IfErr, IsTrue};
ghost use Rattle.octet_lists.specs.Sizes.{max_packet};
ghost use Rattle.eap_packet.specs.Packet.{value_with, has_type};
ghost use Rattle.eap_packet.specs.Packet as packets;
ghost use Rattle.gpsk_messages.specs.Message.{IsGpsk, message_of, size_of, spelled};
ghost use Rattle.gpsk_messages.specs.Plain.{fields_of, plain_value};
ghost use Rattle.gpsk_messages.specs.Reading.{read_of};
ghost use Rattle.gpsk_messages.specs.Laws.{Refuses};

use crate::reading::read_gpsk_message;
use crate::view::{Gpsk1, Gpsk2, Gpsk3, Gpsk4, GpskMessage};
use crate::writing::write_gpsk_into;
use eap_packet::{Cause, Code};
use octet_lists::{Packet, Suite};

/// A message of EAP-GPSK (RFC 5433 section 9), borrowed from its Type-Data.
#[derive(Clone, Copy, Debug)]
pub enum GpskView<'a> {
    M1 {
        id_s: &'a [u8],
        rand_s: [u8; 32],
        list: &'a [u8],
    },
    M2 {
        id_p: &'a [u8],
        id_s: &'a [u8],
        rand_p: [u8; 32],
        rand_s: [u8; 32],
        list: &'a [u8],
        suite: Suite,
        pd: &'a [u8],
        mac: &'a [u8],
    },
    M3 {
        rand_p: [u8; 32],
        rand_s: [u8; 32],
        id_s: &'a [u8],
        suite: Suite,
        pd: &'a [u8],
        mac: &'a [u8],
    },
    M4 {
        pd: &'a [u8],
        mac: &'a [u8],
    },
    Fail {
        code: u32,
    },
    ProtectedFail {
        code: u32,
        mac: &'a [u8],
    },
}

/// The view of a message.
fn view_of<'a>(message: &GpskMessage<'a>) -> GpskView<'a>
    ensures { fields_of result ≡ message_of message.now }
{
    match message {
        GpskMessage::M1(gpsk1) => GpskView::M1 {
            id_s: gpsk1.id_s,
            rand_s: gpsk1.rand_s,
            list: gpsk1.list,
        },
        GpskMessage::M2(gpsk2) => GpskView::M2 {
            id_p: gpsk2.id_p,
            id_s: gpsk2.id_s,
            rand_p: gpsk2.rand_p,
            rand_s: gpsk2.rand_s,
            list: gpsk2.list,
            suite: gpsk2.suite,
            pd: gpsk2.pd,
            mac: gpsk2.mac,
        },
        GpskMessage::M3(gpsk3) => GpskView::M3 {
            rand_p: gpsk3.rand_p,
            rand_s: gpsk3.rand_s,
            id_s: gpsk3.id_s,
            suite: gpsk3.suite,
            pd: gpsk3.pd,
            mac: gpsk3.mac,
        },
        GpskMessage::M4(gpsk4) => GpskView::M4 {
            pd: gpsk4.pd,
            mac: gpsk4.mac,
        },
        GpskMessage::Fail { code } => GpskView::Fail { code: *code },
        GpskMessage::ProtectedFail { code, mac } => GpskView::ProtectedFail {
            code: *code,
            mac: *mac,
        },
    }
}

/// The message of a view.
fn message_in<'a>(view: &GpskView<'a>) -> GpskMessage<'a>
    ensures { message_of result ≡ fields_of view.now }
{
    match *view {
        GpskView::M1 { id_s, rand_s, list } => GpskMessage::M1(Gpsk1 { id_s, rand_s, list }),
        GpskView::M2 {
            id_p,
            id_s,
            rand_p,
            rand_s,
            list,
            suite,
            pd,
            mac,
        } => GpskMessage::M2(Gpsk2 {
            id_p,
            id_s,
            rand_p,
            rand_s,
            list,
            suite,
            pd,
            mac,
        }),
        GpskView::M3 {
            rand_p,
            rand_s,
            id_s,
            suite,
            pd,
            mac,
        } => GpskMessage::M3(Gpsk3 {
            rand_p,
            rand_s,
            id_s,
            suite,
            pd,
            mac,
        }),
        GpskView::M4 { pd, mac } => GpskMessage::M4(Gpsk4 { pd, mac }),
        GpskView::Fail { code } => GpskMessage::Fail { code },
        GpskView::ProtectedFail { code, mac } => GpskMessage::ProtectedFail { code, mac },
    }
}

/// The message that the Type-Data encodes, as [`read_gpsk_message`] says.
pub fn read_gpsk<'a>(body: &'a [u8], ks: Option<u8>) -> Result<GpskView<'a>, Cause>
    ensures message { plain_value result ≡ read_of ks body.now }
    ensures spelled { IfOk result (λ view. IsGpsk ks (fields_of view) body.now) }
    ensures refused { IfErr result (Refuses ks body.now) }
{
    Ok(view_of(&read_gpsk_message(body, ks)?))
}

/// The Request or the Response of Type 51 with this Identifier whose Type-Data encodes the message.
pub fn write_gpsk(view: &GpskView, code: Code, id: u8) -> Packet
    requires typed { IsTrue (has_type code) }
    requires bounded { size_of (fields_of view.now) + 5 ≤ max_packet }
    ensures { result ≡ packets.spelled (value_with code id 51 (spelled (fields_of view.now))) }
{
    let mut packet = Packet::new();
    write_gpsk_into(&mut packet, &message_in(view), code, id);
    packet
}
