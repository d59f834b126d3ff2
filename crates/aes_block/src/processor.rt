// What the code is built for.

ghost use Rattle.std.specs.Prelude.{◌≡◌};
ghost use Rattle.aes_block.specs.Processor.{shuffled};

// Whether the processor shuffles octets in a register. What is built for one that doesn't has `false` here,
// and the crate is proved with either.
#[inline(never)]
#[tactic(auto, unfolding(crate::specs::Processor::shuffled))]
pub(crate) fn shuffles() -> bool
    ensures { result ≡ shuffled }
{
    true
}
