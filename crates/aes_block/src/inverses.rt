//! Laws of the cipher and its field. Each is the contract of a function that does nothing.

ghost use Rattle.aes_block.specs.Blocks.{EncryptionsAreBlocks, EncryptionsDiffer};
ghost use Rattle.aes_block.specs.Field.{InversesAreUnique};

/// Every octet but 0 has exactly one inverse in the field of 256 elements, that of the definition (FIPS
/// 197, section 4.4).
#[tactic(auto, using(crate::proofs::Laws::inverses_are_unique))]
pub fn inverses_are_unique()
    ensures { InversesAreUnique }
{}

/// What a block is encrypted to is a block (FIPS 197, section 5).
pub fn encryptions_are_blocks()
    ensures { EncryptionsAreBlocks }
{}

/// No two blocks have one encryption under a key (FIPS 197, section 5.3: each step has its inverse).
#[tactic(auto, using(crate::proofs::Differing::encryptions_differ))]
pub fn encryptions_differ()
    ensures { EncryptionsDiffer }
{}
