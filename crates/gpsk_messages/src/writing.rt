//! Writing a message as a packet (RFC 5433 section 9).

ghost use Rattle.std.specs.Prelude.{◌≡◌, ◌+◌, ◌≤◌, ◌++◌, length, IsTrue};
ghost use Rattle.std.specs.Int.{w32, to_be_bytes};
ghost use Rattle.octet_lists.specs.Suite.{suite_octets};
ghost use Rattle.octet_lists.specs.Sizes.{max_packet};
ghost use Rattle.eap_packet.specs.Packet.{value_with, has_type, max_type_data};
ghost use Rattle.eap_packet.specs.Packet as packets;
ghost use Rattle.gpsk_messages.specs.Message.{message_of, op_code, spelled, field_with_length};
ghost use Rattle.gpsk_messages.specs.Message.{size_of};

use crate::view::{Gpsk1, Gpsk2, GpskMessage};
use byteorder::{BigEndian, ByteOrder};
use eap_packet::{Code, init_into};
use octet_lists::{GPSK_KIND, Packet, Suite};

/// Appends a field behind its length, for which there is room.
#[inline(never)]
fn put_sized(packet: &mut Packet, field: &[u8])
    requires { length packet.old + 2 + length field.now ≤ max_packet }
    ensures { packet.new ≡ packet.old ++ field_with_length field.now }
{
    let mut size = [0; 2];
    BigEndian::write_u16(&mut size, field.len() as u16);
    packet.put(&size);
    packet.put(field);
}

/// Appends a Failure-Code, for which there is room.
fn put_code(packet: &mut Packet, code: u32)
    requires { length packet.old + 4 ≤ max_packet }
    ensures { packet.new ≡ packet.old ++ to_be_bytes w32 code }
{
    let mut octets = [0; 4];
    BigEndian::write_u32(&mut octets, code);
    packet.put(&octets);
}

/// Appends a nonce, for which there is room.
fn put_rand(packet: &mut Packet, rand: &[u8; 32])
    requires { length packet.old + length rand.now ≤ max_packet }
    ensures { packet.new ≡ packet.old ++ rand.now }
{
    packet.put(rand);
}

/// Appends the two nonces, for which there is room.
fn put_rands(packet: &mut Packet, rand_p: &[u8; 32], rand_s: &[u8; 32])
    requires { length packet.old + length rand_p.now + length rand_s.now ≤ max_packet }
    ensures { packet.new ≡ packet.old ++ (rand_p.now ++ rand_s.now) }
{
    put_rand(packet, rand_p);
    put_rand(packet, rand_s);
}

/// Appends the fields of GPSK-1, for which there is room.
fn put_gpsk1(packet: &mut Packet, gpsk1: &Gpsk1)
    requires { length packet.old + 4 + length gpsk1.now.id_s.now + length gpsk1.now.rand_s
        + length gpsk1.now.list.now ≤ max_packet }
    ensures { packet.new ≡ packet.old
        ++ (field_with_length gpsk1.now.id_s.now ++ (gpsk1.now.rand_s ++ field_with_length gpsk1.now.list.now)) }
{
    put_sized(packet, gpsk1.id_s);
    put_rand(packet, &gpsk1.rand_s);
    put_sized(packet, gpsk1.list);
}

/// Appends the fields of GPSK-2 up to the list of suites, for which there is room.
fn put_offer(packet: &mut Packet, gpsk2: &Gpsk2)
    requires { length packet.old + 6 + length gpsk2.now.id_p.now + length gpsk2.now.id_s.now
        + length gpsk2.now.rand_p + length gpsk2.now.rand_s + length gpsk2.now.list.now ≤ max_packet }
    ensures { packet.new ≡ packet.old
        ++ (field_with_length gpsk2.now.id_p.now ++ (field_with_length gpsk2.now.id_s.now
        ++ (gpsk2.now.rand_p ++ (gpsk2.now.rand_s ++ field_with_length gpsk2.now.list.now)))) }
{
    put_sized(packet, gpsk2.id_p);
    put_sized(packet, gpsk2.id_s);
    put_rands(packet, &gpsk2.rand_p, &gpsk2.rand_s);
    put_sized(packet, gpsk2.list);
}

/// Appends CSuite_Sel, the PD block and the MAC, for which there is room.
#[inline(never)]
fn put_sealed(packet: &mut Packet, suite: Suite, pd: &[u8], mac: &[u8])
    requires { length packet.old + 8 + length pd.now + length mac.now ≤ max_packet }
    ensures { packet.new
        ≡ packet.old ++ (suite_octets suite ++ (field_with_length pd.now ++ mac.now)) }
{
    packet.put(&suite.octets());
    put_sized(packet, pd);
    packet.put(mac);
}

/// The OP-Code of the message.
fn op_code_of(view: &GpskMessage) -> u8
    ensures { result ≡ op_code (message_of view.now) }
{
    match view {
        GpskMessage::M1(_) => 1,
        GpskMessage::M2(_) => 2,
        GpskMessage::M3(_) => 3,
        GpskMessage::M4(_) => 4,
        GpskMessage::Fail { .. } => 5,
        GpskMessage::ProtectedFail { .. } => 6,
    }
}

/// The octets of the message's Type-Data.
fn size_of(view: &GpskMessage) -> usize
    requires { size_of (message_of view.now) ≤ max_type_data }
    ensures { result ≡ size_of (message_of view.now) }
{
    match view {
        GpskMessage::M1(gpsk1) => {
            5 + gpsk1.id_s.len() + gpsk1.rand_s.as_slice().len() + gpsk1.list.len()
        }
        GpskMessage::M2(gpsk2) => {
            let names = gpsk2.id_p.len() + gpsk2.id_s.len();
            let rands = gpsk2.rand_p.as_slice().len() + gpsk2.rand_s.as_slice().len();
            15 + names + rands + gpsk2.list.len() + gpsk2.pd.len() + gpsk2.mac.len()
        }
        GpskMessage::M3(gpsk3) => {
            let rands = gpsk3.rand_p.as_slice().len() + gpsk3.rand_s.as_slice().len();
            11 + rands + gpsk3.id_s.len() + gpsk3.pd.len() + gpsk3.mac.len()
        }
        GpskMessage::M4(gpsk4) => 3 + gpsk4.pd.len() + gpsk4.mac.len(),
        GpskMessage::Fail { .. } => 5,
        GpskMessage::ProtectedFail { mac, .. } => 5 + mac.len(),
    }
}

/// Appends the Type-Data of the message, for which there is room.
#[tactic(auto, unfolding(crate::specs::Message::spelled, crate::specs::Message::covered_of))]
fn put_message(packet: &mut Packet, view: &GpskMessage)
    requires { length packet.old + size_of (message_of view.now) ≤ max_packet }
    ensures { packet.new ≡ packet.old ++ spelled (message_of view.now) }
{
    packet.put(&[op_code_of(view)]);
    match view {
        GpskMessage::M1(gpsk1) => put_gpsk1(packet, gpsk1),
        GpskMessage::M2(gpsk2) => {
            put_offer(packet, gpsk2);
            put_sealed(packet, gpsk2.suite, gpsk2.pd, gpsk2.mac);
        }
        GpskMessage::M3(gpsk3) => {
            put_rands(packet, &gpsk3.rand_p, &gpsk3.rand_s);
            put_sized(packet, gpsk3.id_s);
            put_sealed(packet, gpsk3.suite, gpsk3.pd, gpsk3.mac);
        }
        GpskMessage::M4(gpsk4) => {
            put_sized(packet, gpsk4.pd);
            packet.put(gpsk4.mac);
        }
        GpskMessage::Fail { code } => put_code(packet, *code),
        GpskMessage::ProtectedFail { code, mac } => {
            put_code(packet, *code);
            packet.put(mac);
        }
    }
}

/// Writes the Request or the Response of Type 51 with this Identifier whose Type-Data encodes the
/// message, in place of what the packet had.
#[tactic(auto, using(crate::proofs::Grammar::encodings_are_sized))]
pub fn write_gpsk_into(packet: &mut Packet, view: &GpskMessage, code: Code, id: u8)
    requires typed { IsTrue (has_type code) }
    requires bounded { size_of (message_of view.now) + 5 ≤ max_packet }
    ensures { packet.new ≡ packets.spelled (value_with code id 51 (spelled (message_of view.now))) }
{
    init_into(packet, code, id, GPSK_KIND, size_of(view));
    put_message(packet, view);
}
