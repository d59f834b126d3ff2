//! What a call writes into a buffer of the program's.

ghost use Rattle.std.specs.Prelude.{◌≤◌, length};
ghost use Rattle.tuvaddri_c.specs.Capacities.{IsCopied, IsWritten};

/// Copies octets to the start of a buffer if they fit, and answers their number.
pub fn copy(octets: &[u8], room: &mut [u8]) -> usize
    ensures { IsCopied octets.now room.old result room.new }
{
    if octets.len() <= room.len() {
        room[..octets.len()].copy_from_slice(octets);
    }
    octets.len()
}

/// Writes octets, for which there is room, to the start of a buffer, and answers their number.
pub fn write_octets<const N: usize>(octets: &[u8], room: &mut [u8; N]) -> usize
    requires { length octets.now ≤ N }
    ensures { IsWritten octets.now room.old result room.new }
{
    room[..octets.len()].copy_from_slice(octets);
    octets.len()
}
