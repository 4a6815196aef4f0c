// The S-box and its inverse, FIPS 197 Figures 7 and 14, for `columns` and `schedule`. The cipher's third table, the powers of x, is in `schedule`.
#![tactic(auto)]

mod figure_14;
mod figure_7;

ghost use Rattle.std.specs.Prelude.{◌≡◌};
ghost use Rattle.fips197.specs.SBox.{s_box, inv_sbox};

// The substitution of a byte, FIPS 197 section 5.1.1.
#[tactic(auto, unfolding(fips197::specs::SBox::s_box, fips197::specs::SBox::s_box_table))]
pub fn substitute(b: u8) -> u8
    ensures { result ≡ s_box b }
{
    figure_7::SBOX[b as usize]
}

// The inverse substitution of a byte, FIPS 197 section 5.3.2: the standard has two tables, each with its definition.
#[tactic(auto, unfolding(fips197::specs::SBox::inv_sbox, fips197::specs::SBox::inv_sbox_table))]
pub fn inv_substitute(b: u8) -> u8
    ensures { result ≡ inv_sbox b }
{
    figure_14::INV_SBOX[b as usize]
}
