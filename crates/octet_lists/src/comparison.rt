//! The comparison of tags.

ghost use Rattle.std.specs.Prelude.{◌≡◌};
ghost use Rattle.std.specs.Str.{bytes_eq};

/// Whether both have the same octets. Every comparison of a tag or a MAC goes by this call: if both
/// have as many octets, it looks at all of them, whatever they are. It makes no claim on time.
#[tactic(auto, using(crate::proofs::Differences::differences_of_all, crate::proofs::Differences::differs_by_length))]
#[inline(never)]
pub fn equal_in_full(left: &[u8], right: &[u8]) -> bool
    ensures { result ≡ bytes_eq left.now right.now }
{
    if left.len() != right.len() {
        return false;
    }
    let mut difference = 0;
    'octets: for i in 0..left.len() {
        difference |= left[i] ^ right[i];
    }
    difference == 0
}
