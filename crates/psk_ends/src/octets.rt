//! RAND_S or RAND_P of a nonce, the header of a packet and its message, or why it is discarded.

ghost use Rattle.std.specs.Prelude.{◌≡◌, ◌≤◌, length, Bool, IfOk};
ghost use Rattle.psk_messages.specs.Message.{AreFields, read_value, message_of};
ghost use Rattle.psk_messages.specs.Reading.{read_of};
ghost use Rattle.eap_method.specs.Turns.{body_of, discarded, dropped};
ghost use Rattle.eap_method.specs.PskTags.{header_of, rand_of};
ghost use Rattle.eap_method.specs.PskPeer as peer;
ghost use Rattle.eap_method.specs.PskPeer.{over_reads};
ghost use Rattle.eap_method.specs.PskServer as server;
ghost use Rattle.eap_method.specs.PskServer.{idle_reads};

use eap_packet::Cause;
use octet_lists::{Nonce, array_of};
use psk_messages::{HEADER, PskMessage, read_psk_message};

/// RAND_S or RAND_P: the first 16 octets of an end's nonce.
pub fn rand_of(nonce: &Nonce) -> [u8; 16]
    ensures { result ≡ rand_of nonce.now }
{
    array_of(&nonce[..16])
}

/// The header of a packet for PCHANNEL: its first 22 octets (RFC 4764 section 3.3).
pub fn header_of<'a>(packet: &'a [u8]) -> &'a [u8]
    ensures header { result.now ≡ header_of packet.now }
    ensures size { length result.now ≤ 22 }
{
    &packet[..packet.len().min(HEADER)]
}

/// The message in the Type-Data of a Request or a Response.
pub fn message_in<'a>(packet: &'a [u8]) -> Result<PskMessage<'a>, Cause>
    requires { 5 ≤ length packet.now }
    ensures message { read_value result ≡ read_of (body_of packet.now) }
    ensures fields { IfOk result (λ view. AreFields (message_of view)) }
{
    read_psk_message(&packet[5..])
}

/// Why an end that awaits nothing discards a packet.
pub fn idle_cause(packet: &[u8]) -> Cause
    requires { 5 ≤ length packet.now }
    ensures peer { (login : peer.Login) (good : Bool)
        → discarded (peer.over login good) result
        ≡ over_reads login good (read_of (body_of packet.now)) }
    ensures server { (view : server.View)
        → dropped view result ≡ idle_reads view (read_of (body_of packet.now)) }
{
    match message_in(packet) {
        Err(cause) => cause,
        Ok(_) => Cause::WrongOp,
    }
}
