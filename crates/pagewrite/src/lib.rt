// What a WRITE stores: the four bytes of a page after it (document 01, "Writing" and "One-way bits"; 009 8.5.3 to 8.5.5 and Table 15).
#![tactic(auto)]

ghost use Rattle.std.specs.Prelude.{◌≡◌};
ghost use Rattle.model.specs.Writing.{merged, keep_of, lock_opened, pair_lock_opened, opened_of, written};

use freezing::{frozen_locks, frozen_pair_locks};
use memory::pages::Pages;
use model::{Map, Masks, Quad};

// Every bit of four bytes, and none.
const ALL: Quad = Quad {
    a: 0xff,
    b: 0xff,
    c: 0xff,
    d: 0xff,
};

const NONE: Quad = Quad {
    a: 0x00,
    b: 0x00,
    c: 0x00,
    d: 0x00,
};

// A byte after a write: the old bits under keep, and the new bits under opened.
#[tactic(auto, unfolding(model::specs::Writing::merged))]
pub fn merged(keep: u8, opened: u8, old: u8, new: u8) -> u8
    ensures { result ≡ merged keep opened old new }
{
    bits::one_way(opened, old & keep, new)
}

// The one-way bits of each byte of page p: the lock pages and OTP whole, LOCK_USR_CFG in CFG_1, three bits of LOCK_KEYS (Table 15).
#[tactic(auto, unfolding(model::specs::Writing::keep_of))]
pub fn keep_of(map: Map, p: u8) -> Quad
    ensures { result ≡ keep_of map p }
{
    if p == map.locks || p == map.otp || p == map.pairlocks {
        ALL
    } else if p == map.cfg1 {
        Quad { a: 0x40, ..NONE }
    } else if p == map.keylocks {
        Quad { a: 0xe0, ..NONE }
    } else {
        NONE
    }
}

// Page 02h: data bytes 0 and 1 are ignored, and so is a frozen bit of bytes 2 and 3.
fn lock_opened(f: Masks) -> Quad
    ensures { result ≡ lock_opened f }
{
    Quad {
        a: 0x00,
        b: 0x00,
        c: 0xff - f.first,
        d: 0xff - f.second,
    }
}

// Page 28h: lock bytes 2 and 3 likewise; reserved bits and the reserved byte take nothing. A function of its own, as its definition is.
fn pair_lock_opened(f: Masks) -> Quad
    ensures { result ≡ pair_lock_opened f }
{
    Quad {
        a: 0xff - f.first,
        b: 0x0f_u8.saturating_sub(f.second),
        c: 0x3f,
        d: 0x00,
    }
}

// The bits of each data byte that count in a write to page p, by the block-lock bits as they are before the write.
#[inline(always)]
#[tactic(auto, unfolding(model::specs::Writing::opened_of))]
pub fn opened_of(pages: &Pages, p: u8) -> Quad
    ensures { result ≡ opened_of pages.now.map pages.now.bytes.now p }
{
    let map = pages.map;
    if p == map.locks {
        lock_opened(frozen_locks(pages.byte(p, 2)))
    } else if p == map.pairlocks {
        pair_lock_opened(frozen_pair_locks(pages.byte(p, 2)))
    } else {
        ALL
    }
}

// The four bytes of page p after a write of q. Inlined, as `opened_of` is: they are lent what `deciding::command` is.
#[inline(always)]
#[tactic(auto, unfolding(model::specs::Writing::written))]
pub fn written(pages: &Pages, p: u8, q: Quad) -> Quad
    ensures { result ≡ written pages.now.map pages.now.bytes.now p q }
{
    let keep = keep_of(pages.map, p);
    let opened = opened_of(pages, p);
    Quad {
        a: merged(keep.a, opened.a, pages.byte(p, 0), q.a),
        b: merged(keep.b, opened.b, pages.byte(p, 1), q.b),
        c: merged(keep.c, opened.c, pages.byte(p, 2), q.c),
        d: merged(keep.d, opened.d, pages.byte(p, 3), q.d),
    }
}
