//! The lines of a list of packets in hex.

ghost use Rattle.std.specs.Prelude.{◌≡◌};
ghost use Rattle.request_text.specs.Packets.{packet_line};

use octet_lists::Injected;
use text_tables::{LineFault, is_comment, read_hex, word_count};

/// The octets of a packet, 0 to 2,000, which the line has as one hex word, `-` for none. None for an
/// empty line and for one that begins with `#`. The faults in their order are `BadCount`, `BadHex` and
/// `BadSize`.
#[tactic(auto, unfolding(crate::specs::Packets::packet_line))]
pub fn read_packet_line(line: &[u8]) -> Result<Option<Injected>, LineFault>
    ensures { result ≡ packet_line line.now }
{
    if is_comment(line) {
        return Ok(None);
    }
    if word_count(line) != 1 {
        return Err(LineFault::BadCount);
    }
    Ok(Some(read_hex(line)?))
}
