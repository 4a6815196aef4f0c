// Where the count byte of each section of an image stands, and how long an image is (document 01, "Image file"). All of it follows from the
// number of pages, of which a map has at most 255.
ghost use Rattle.std.specs.Prelude.{◌≡◌};
ghost use Rattle.model.specs.Image.{counters_at, failed_at, key_at, image_size};

use memory::sizes;
use model::Map;

pub fn counters_at(map: Map) -> usize
    ensures { result ≡ counters_at map }
{
    1 + sizes::store_size(map)
}

pub fn failed_at(map: Map) -> usize
    ensures { result ≡ failed_at map }
{
    counters_at(map) + 10
}

pub fn key_at(map: Map) -> usize
    ensures { result ≡ key_at map }
{
    failed_at(map) + 3
}

pub fn image_size(map: Map) -> usize
    ensures { result ≡ image_size map }
{
    key_at(map) + 17
}
