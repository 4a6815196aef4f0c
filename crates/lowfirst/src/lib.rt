// Numbers laid over a run of bytes low byte first, as a counter is sent and as the C form's record holds them.
#![tactic(auto)]

ghost use Rattle.std.specs.Prelude.{◌≡◌, ◌≤◌, length};
ghost use Rattle.std.proofs.lemmas.List.Edits.{sets};
ghost use Rattle.model.specs.Counters.{low_first};

// The count low bytes of n, from byte at on; what passes the end of b is not stored. It stays a function: docs/CLAIMS.md names what it ensures.
#[tactic(auto, using(crate::proofs::Laid::low_bytes))]
pub fn lay_number(b: &mut [u8], at: usize, count: usize, n: u32)
    requires at_in_bounds { at ≤ length b.old }
    requires count_bound { count ≤ 4 }
    ensures { b.new ≡ sets b.old at (low_first count n) }
{
    let bytes = n.to_le_bytes();
    octets::lay(b, at, &bytes[..count]);
}
