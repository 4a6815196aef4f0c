// Bytes as READ and FAST_READ show them: a key's as zero, and the serial number's too while Random ID stands for it.
#![tactic(auto)]

ghost use Rattle.std.specs.Prelude.{◌≡◌};
ghost use Rattle.model.specs.Reading.{in_key_pages, hidden, shown_byte};

use memory::pages::Pages;
use memory::record;
use model::{Map, State};

// Seven bytes of the serial number and its two check bytes.
const ID_BYTES: usize = 9;

// Byte i lies in a key page.
fn in_key_pages(map: Map, i: usize) -> bool
    ensures { result ≡ in_key_pages map i }
{
    4 * usize::from(map.key0) <= i && i < 4 * usize::from(map.key1) + 16
}

// Byte i is shown as zero: a key's, or the serial number's while Random ID stands for it.
#[tactic(auto, unfolding(model::specs::Reading::hidden))]
fn hidden(pages: &Pages, st: State, i: usize) -> bool
    ensures { result ≡ hidden pages.now.map st pages.now.bytes.now i }
{
    in_key_pages(pages.map, i) || pages.random_id_on() && record::is_active(st) && i < ID_BYTES
}

// Byte i of the memory as it is shown.
#[tactic(auto, unfolding(model::specs::Reading::shown_byte))]
pub fn shown_byte(pages: &Pages, st: State, i: usize) -> u8
    ensures { result ≡ shown_byte pages.now.map st pages.now.bytes.now i }
{
    if hidden(pages, st, i) {
        0
    } else {
        octets::at(pages.bytes, i)
    }
}
