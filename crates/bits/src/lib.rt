// The one-way byte of a tag's memory: OTP bytes and lock bytes, whose bits a write can set and nothing can clear.
#![tactic(auto)]

ghost use Rattle.std.specs.Prelude.{◌≡◌};
ghost use Rattle.bits.specs.Bits.{one_way};

// The value after a write of `new` over `old`, where `mask` has a 1 at each bit that may still be set.
#[tactic(auto, unfolding(crate::specs::Bits::one_way))]
pub fn one_way(mask: u8, old: u8, new: u8) -> u8
    ensures { result ≡ one_way mask old new }
{
    old | (new & mask)
}
