//! What answers a request for a cipher, a MAC or keys, and what Type-Data of a method says.

ghost use Rattle.request_text.specs.Keys.{HasSizes};
ghost use Rattle.answer_text.specs.Writes.{Appends, Puts};
ghost use Rattle.answer_text.specs.Answers.{key_text, message_text};

use crate::keys::write_eax;
use crate::line_buffer::LineBuffer;
use crate::lines::write_hex;
use crate::pieces::Piece::Text;
use crate::pieces::put_pieces;
use crate::{gpsk, psk};
use aes_block::Aes128;
use cmac_mac::cmac_whole;
use hmac_mac::hmac_whole;
use login_keys::{gpsk_keys, key_name};
use octet_io::{Failed, Sink};
use octet_lists::{GPSK_KIND, PSK_KIND};
use request_text::KeyLine;

/// Puts the message that Type-Data of this Type is.
pub fn put_message<W: Sink>(
    sink: &mut W,
    line: &mut LineBuffer,
    kind: u8,
    body: &[u8],
) -> Result<(), Failed>
    ensures { Puts W.shown result sink.old sink.new line.old line.new (message_text kind body.now) }
{
    match kind {
        PSK_KIND => psk::put_note(sink, line, body),
        GPSK_KIND => gpsk::put_note(sink, line, body),
        _ => put_pieces(sink, line, &[Text(b"-")]),
    }
}

/// Writes the answer to a request: a line for each value, its name and its octets in hex, `-` if there
/// are none. `Failed`: a write failed, and a prefix of the lines was appended.
#[tactic(auto, unfolding(crate::specs::Answers::key_text))]
pub fn write_key_line<W: Sink>(sink: &mut W, asked: &KeyLine) -> Result<(), Failed>
    requires { HasSizes asked.now }
    ensures { Appends W.shown result sink.old sink.new (key_text asked.now) }
{
    match asked {
        KeyLine::Aes { key, block } => { write_hex(sink, "aes", &Aes128::new(key).encrypt(block)) }
        KeyLine::Cmac { key, text } => {
            write_hex(sink, "cmac", &cmac_whole(key, text.as_slice()))
        }
        KeyLine::Hmac { key, text } => {
            write_hex(sink, "hmac", &hmac_whole(key.as_slice(), text.as_slice()))
        }
        KeyLine::Eax {
            key,
            nonce,
            header,
            text,
        } => write_eax(sink, key, nonce, header, text),
        KeyLine::Gpsk {
            suite,
            psk,
            randp,
            idp,
            rands,
            ids,
        } => {
            let keys = gpsk_keys(
                *suite,
                psk.as_slice(),
                randp,
                idp.as_slice(),
                rands,
                ids.as_slice(),
            );
            gpsk::write_keys(sink, &keys)
        }
        KeyLine::Psk { psk, randp } => psk::write_keys(sink, psk, randp),
        KeyLine::Name { key } => write_hex(sink, "name", &key_name(key.as_slice())),
    }
}
