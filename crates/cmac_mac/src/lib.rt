//! AES-CMAC, the message authentication code of RFC 4493, of a text that comes in pieces.
#![tactic(auto)]

ghost use Rattle.std.specs.Prelude.{◌≡◌, List, ℕ, [], ◌++◌};
ghost use Rattle.cmac_mac.specs.Cmac.{aes_cmac};

pub use crate::key::CmacKey;
use crate::taken::ChainState;

mod blocks;
mod key;
mod taken;

/// The CMAC of a text that comes in pieces: [`Cmac::new`] or [`CmacKey::start`], an
/// [`update`](Cmac::update) for each piece, and [`finish`](Cmac::finish). It stores no text, only the
/// chain and the last octets.
///
/// A contract says by `Represents mac key text` which key and which text a value represents.
#[derive(Drop)]
pub struct Cmac {
    key: CmacKey,
    taken: ChainState,
}

impl Cmac {
    ghost use Rattle.cmac_mac.specs.Represents.{Represents};

    /// Begins with the empty text, under this key.
    #[tactic(auto, unfolding(crate::specs::Represents::Represents))]
    pub fn new(key: &[u8; 16]) -> Cmac
        ensures { Represents result key.now [] }
    {
        Cmac {
            key: CmacKey::new(key),
            taken: ChainState::new(),
        }
    }

    /// Appends a piece to the text.
    #[tactic(auto, unfolding(crate::specs::Represents::Represents))]
    pub fn update(&mut self, piece: &[u8])
        ensures { (key text : List ℕ) → Represents self.old key text
            → Represents self.new key (text ++ piece.now) }
    {
        self.taken.update(&self.key, piece);
    }

    /// The tag of the text (RFC 4493, section 2.4).
    #[tactic(auto, unfolding(crate::specs::Represents::Represents))]
    pub fn finish(self) -> [u8; 16]
        ensures { (key text : List ℕ) → Represents self key text → result ≡ aes_cmac key text }
    {
        self.key.finish(&self.taken)
    }
}

impl CmacKey {
    ghost use Rattle.cmac_mac.specs.Represents.{Represents};

    /// Begins with the empty text.
    #[tactic(auto, unfolding(crate::specs::Represents::Represents))]
    pub fn start(&self) -> Cmac
        ensures { Represents result self.now [] }
    {
        Cmac {
            key: self.copy(),
            taken: ChainState::new(),
        }
    }
}

/// The tag of a whole text (RFC 4493, section 2.4).
pub fn cmac_whole(key: &[u8; 16], text: &[u8]) -> [u8; 16]
    ensures { result ≡ aes_cmac key.now text.now }
{
    CmacKey::new(key).tag_whole(text)
}
