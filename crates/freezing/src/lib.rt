// What the block-lock bits freeze: the lock bits that a WRITE to a lock page can no longer set (document 01, "One-way bits"; 009 8.5.3 and 8.5.4).
#![tactic(auto)]

ghost use Rattle.std.specs.Prelude.{◌≡◌};
ghost use Rattle.model.specs.Writing.{freeze_rows, pair_freeze_rows, frozen};

use memory::settings::bit_set;
use model::Masks;

// No bit.
const NOTHING: Masks = Masks {
    first: 0x00,
    second: 0x00,
};

// Document 01's freeze masks: a row for each of block-lock bits 0 to 2 of lock byte 0, and what it freezes in lock bytes 0 and 1.
static FREEZE: [Masks; 3] = [
    Masks {
        first: 0x08,
        second: 0x00,
    },
    Masks {
        first: 0xf0,
        second: 0x03,
    },
    Masks {
        first: 0x00,
        second: 0xfc,
    },
];

// A row for each of block-lock bits 0 to 5 of lock byte 4, and what it freezes in lock bytes 2 and 3 (8.5.4).
static PAIR_FREEZE: [Masks; 6] = [
    Masks {
        first: 0x03,
        second: 0x00,
    },
    Masks {
        first: 0x0c,
        second: 0x00,
    },
    Masks {
        first: 0x30,
        second: 0x00,
    },
    Masks {
        first: 0xc0,
        second: 0x00,
    },
    Masks {
        first: 0x00,
        second: 0x03,
    },
    Masks {
        first: 0x00,
        second: 0x0c,
    },
];

// What the rows freeze whose bit in b is set; bit 0 of b is the first row's.
#[tactic(auto, unfolding(model::specs::Writing::frozen))]
fn frozen(rows: &[Masks], b: u8) -> Masks
    ensures { result ≡ frozen rows.now b }
{
    let mut masks = NOTHING;
    let mut bits = b;
    for row in rows {
        if bit_set(0, bits.into()) {
            masks.first |= row.first;
            masks.second |= row.second;
        }
        bits /= 2;
    }
    masks
}

// What the block-lock bits of lock byte 0 freeze.
#[tactic(auto, unfolding(model::specs::Writing::freeze_rows))]
pub fn frozen_locks(b: u8) -> Masks
    ensures { result ≡ frozen freeze_rows b }
{
    frozen(&FREEZE, b)
}

// What the block-lock bits of lock byte 4 freeze: the same over the other table. Callers would else have to name the table, which is no plainer.
#[tactic(auto, unfolding(model::specs::Writing::pair_freeze_rows))]
pub fn frozen_pair_locks(b: u8) -> Masks
    ensures { result ≡ frozen pair_freeze_rows b }
{
    frozen(&PAIR_FREEZE, b)
}
