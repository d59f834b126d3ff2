//! What a peer takes from GPSK-1.

ghost use Rattle.std.specs.Prelude.{◌≤◌, length};
ghost use Rattle.octet_lists.specs.Sizes.{max_name};
ghost use Rattle.gpsk_messages.specs.Message.{max_list};

use octet_lists::{Nonce, Suite};

/// GPSK-1 of a server that the peer accepts, with the suite that it picks.
#[derive(Drop)]
pub struct Offer<'a> {
    /// ID_Server.
    pub id_s: &'a [u8],
    /// RAND_Server.
    pub rand_s: Nonce,
    /// CSuite_List.
    pub list: &'a [u8],
    /// CSuite_Sel.
    pub suite: Suite,
    ghost name: { length id_s.now ≤ max_name },
    ghost few: { length list.now ≤ max_list },
}
