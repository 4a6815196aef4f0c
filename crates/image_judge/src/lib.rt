// Whether a file is an image (document 01, "Image file").
#![tactic(auto)]

ghost use Rattle.std.specs.Prelude.{◌≡◌, drop};
ghost use Rattle.model.specs.Image.{check_bytes_right, image_right};
ghost use Rattle.sections.specs.Sections.{counts_right};

use fields::{block_of, number2};
use memory::record::HIGHEST_FAILED;
use model::Map;
use sections::sizes;

// Each section begins with the count of what it holds.
// The map and the bytes are passed apart, here and in `image_read`, `image_write` and `image`: two of these functions use the map for the store too, and a struct
// for the other four would be a type more for a line in each.
#[tactic(auto, unfolding(sections::specs::Sections::counts_right))]
fn counts_right(map: Map, i: &[u8]) -> bool
    ensures { result ≡ counts_right map i.now }
{
    octets::at(i, 0) == map.pages
        && octets::at(i, sizes::counters_at(map)) == 3
        && octets::at(i, sizes::failed_at(map)) == 1
        && octets::at(i, sizes::key_at(map)) == 1
}

// The check bytes of the serial number, 009 8.5.1; store byte 0 is byte 1 of the image.
fn check_bytes_right(i: &[u8]) -> bool
    ensures { result ≡ check_bytes_right (drop 1 i.now) }
{
    let [sn0, sn1, sn2, bcc0, sn3, sn4, sn5, sn6, bcc1, ..] = block_of(i, 1);
    bcc0 == 0x88 ^ sn0 ^ sn1 ^ sn2 && bcc1 == sn3 ^ sn4 ^ sn5 ^ sn6
}

// The file is an image: its length, its counts, a failed count that a tag can have, and right check bytes.
#[tactic(auto, unfolding(sections::specs::Sections::counts_right, model::specs::Image::image_right))]
pub fn image_right(map: Map, i: &[u8]) -> bool
    ensures { result ≡ image_right map i.now }
{
    i.len() == sizes::image_size(map)
        && counts_right(map, i)
        && number2(i, sizes::failed_at(map) + 1) <= HIGHEST_FAILED
        && check_bytes_right(i)
}
