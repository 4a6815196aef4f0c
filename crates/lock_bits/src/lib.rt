// The lock bits of pages and keys, and the pages that each locks (document 01, "Writing"; 009 8.5.3, 8.5.4 and Table 15).
#![tactic(auto)]

ghost use Rattle.std.specs.Prelude.{◌≡◌};
ghost use Rattle.model.specs.Writing.{own_lock_bars, pair_lock_bars, of_key, key_lock_bars};

use memory::pages::Pages;
use memory::settings::bit_set;
use octets::low_first;

// Lock bytes 0 and 1 as one number: bit p locks page p, from the OTP page to 0Fh (8.5.3).
#[tactic(auto, unfolding(model::specs::Writing::own_lock_bars))]
pub fn own_lock_bars(pages: &Pages, p: u8) -> bool
    ensures { result ≡ own_lock_bars pages.now.map pages.now.bytes.now p }
{
    let page = pages.map.locks;
    let bits = low_first(pages.byte(page, 2), pages.byte(page, 3));
    pages.map.otp <= p && bit_set(p, bits)
}

// Lock bytes 2 and 3 as one number: bit i locks the two pages 10h + 2i and 11h + 2i (8.5.4). Apart from lock bytes 0 and 1, as their definitions are: page, bytes
// and bit all differ.
#[tactic(auto, unfolding(model::specs::Writing::pair_lock_bars))]
pub fn pair_lock_bars(pages: &Pages, p: u8) -> bool
    ensures { result ≡ pair_lock_bars pages.now.map pages.now.bytes.now p }
{
    let page = pages.map.pairlocks;
    let bits = low_first(pages.byte(page, 0), pages.byte(page, 1));
    pages.map.pairs <= p && p < page && bit_set(p.saturating_sub(pages.map.pairs) / 2, bits)
}

// p is one of the four pages from q on.
fn of_key(q: u8, p: u8) -> bool
    ensures { result ≡ of_key q p }
{
    q <= p && u16::from(p) < u16::from(q) + 4
}

// The pages of a locked key, and LOCK_KEYS itself where BLOCK_LOCK_KEY is set.
#[tactic(auto, unfolding(model::specs::Writing::key_lock_bars))]
pub fn key_lock_bars(pages: &Pages, p: u8) -> bool
    ensures { result ≡ key_lock_bars pages.now.map pages.now.bytes.now p }
{
    of_key(pages.map.key0, p) && pages.key_lock_bit(6)
        || of_key(pages.map.key1, p) && pages.key_lock_bit(7)
        || p == pages.map.keylocks && pages.key_lock_bit(5)
}
