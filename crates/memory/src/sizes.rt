// The sizes that follow from the memory map (document 01, "Pages"; 009 Table 6).
ghost use Rattle.std.specs.Prelude.{◌≡◌};
ghost use Rattle.model.specs.Map.{last_page, store_size, reply_size};

use model::Map;

// The highest page.
pub fn last_page(map: Map) -> u8
    ensures { result ≡ last_page map }
{
    map.pages.saturating_sub(1)
}

// Bytes of a store.
pub fn store_size(map: Map) -> usize
    ensures { result ≡ store_size map }
{
    4 * (map.pages as usize)
}

// Bytes a reply buffer must have: every page and the CRC_A, the reply to a FAST_READ of all pages.
pub fn reply_size(map: Map) -> usize
    ensures { result ≡ reply_size map }
{
    4 * (map.pages as usize) + 2
}
