// The image of a tag, laid over the start of a buffer section by section (document 01, "Image file").
#![tactic(auto)]

ghost use Rattle.std.specs.Prelude.{◌≡◌, ◌∷◌, ◌≤◌, ◌<◌, length};
ghost use Rattle.std.proofs.lemmas.List.Edits.{sets};
ghost use Rattle.model.specs.Map.{store_size};
ghost use Rattle.model.specs.Counters.{low_first};
ghost use Rattle.model.specs.Image.{image_size, image_of};
ghost use Rattle.sections.specs.Sections.{counters_section};

use model::{Map, Tag};
use sections::sizes;

// Each section is a count and its bytes.
fn lay_section(image: &mut [u8], at: usize, count: u8, bytes: &[u8])
    requires { at < length image.old }
    ensures { image.new ≡ sets image.old at (count ∷ bytes.now) }
{
    octets::put(image, at, count);
    octets::lay(image, at + 1, bytes);
}

// The three low bytes of a number, low byte first: an array, for `map` and `as_flattened`.
fn three_bytes(n: u32) -> [u8; 3]
    ensures { result ≡ low_first 3 n }
{
    let [low, middle, high, _] = n.to_le_bytes();
    [low, middle, high]
}

// Three counters of three bytes.
#[tactic(auto, unfolding(sections::specs::Sections::counters_section))]
fn lay_counters(image: &mut [u8], at: usize, counters: [u32; 3])
    requires { at < length image.old }
    ensures { image.new ≡ sets image.old at (counters_section counters) }
{
    let bytes = counters.map(three_bytes);
    lay_section(image, at, 3, bytes.as_flattened());
}

// The image: its pages, and the sections behind them.
pub fn lay_image(map: Map, tag: Tag, store: &[u8], image: &mut [u8])
    requires store_len { length store.now ≡ store_size map }
    requires map_in_bounds { image_size map ≤ length image.old }
    ensures { image.new ≡ sets image.old 0 (image_of map tag store.now) }
{
    lay_section(image, 0, map.pages, store);
    lay_counters(image, sizes::counters_at(map), tag.counters);
    lay_section(image, sizes::failed_at(map), 1, &tag.failed.to_le_bytes());
    lay_section(image, sizes::key_at(map), 1, &tag.originality);
}
