// Loading and saving an image file (document 01, "Image file"). Nothing is stored before every check has passed.
#![tactic(auto)]

ghost use Rattle.std.specs.Prelude.{◌≡◌, true, length};
ghost use Rattle.model.specs.Map.{mf0aes20, store_size};
ghost use Rattle.model.specs.Image.{image_right, store_of, load_number, load, save_number, save};
ghost use Rattle.numbers.specs.Refusals.{number_told};

use image_judge::image_right;
use image_read::{tag_of, zero_tag};
use image_write::lay_image;
use memory::record::possible;
use memory::sizes::store_size;
use model::{Map, Tag};
use numbers::{Refusal, refuse_if};
use sections::sizes;

// What a load hands back: its number, and the tag, which is the zero record unless the number is 0. No Result: document 01 hands the zero record back too.
#[derive(Clone, Copy)]
pub struct Loading {
    pub number: u8,
    pub tag: Tag,
}

// The map of this tag, 009 Table 6.
#[tactic(auto, unfolding(model::specs::Map::mf0aes20))]
pub fn mf0aes20() -> Map
    ensures { result ≡ mf0aes20 }
{
    Map {
        pages: 60,
        locks: 0x02,
        otp: 0x03,
        pairs: 0x10,
        pairlocks: 0x28,
        cfg0: 0x29,
        cfg1: 0x2a,
        keylocks: 0x2d,
        key0: 0x30,
        key1: 0x34,
    }
}

// 10 comes before 12.
#[tactic(auto, unfolding(model::specs::Image::load_number, model::specs::Numbers::first, model::specs::Numbers::number_if))]
fn check_load(image: &[u8], store: &[u8]) -> Result<(), Refusal>
    ensures { number_told result ≡ load_number image.now store.now }
{
    let map = mf0aes20();
    refuse_if(store.len() != store_size(map), Refusal::Misfit)?;
    refuse_if(!image_right(map, image), Refusal::NoImage)
}

// The pages of an image, over the whole store. By `octets::lay`: `copy_from_slice` would have C's linker look for memmove, which the library needs for nothing
// else.
#[tactic(auto, unfolding(model::specs::Image::store_of))]
fn take_pages(map: Map, image: &[u8], store: &mut [u8])
    requires store_len { length store.old ≡ store_size map }
    requires image_value { image_right map image.now ≡ true }
    ensures { store.new ≡ store_of map image.now }
{
    let end = sizes::counters_at(map);
    octets::lay(store, 0, &image[1..end]);
}

// 10 and 12 hand back the zero record and leave the store.
pub fn load(image: &[u8], store: &mut [u8]) -> Loading
    ensures number_value { result.number ≡ (load image.now store.old).number }
    ensures tag_value { result.tag ≡ (load image.now store.old).tag }
    ensures store_after { store.new ≡ (load image.now store.old).store }
{
    let map = mf0aes20();
    match check_load(image, &store[..]) {
        Ok(()) => {
            take_pages(map, image, store);
            Loading {
                number: 0,
                tag: tag_of(map, image),
            }
        }
        Err(why) => Loading {
            number: why.number(),
            tag: zero_tag(),
        },
    }
}

// A wrong store, a short buffer, or a record that no tag can have.
#[tactic(auto, unfolding(model::specs::Image::save_number, model::specs::Numbers::number_if))]
fn check_save(tag: Tag, store: &[u8], room: usize) -> Result<(), Refusal>
    ensures { number_told result ≡ save_number tag store.now room }
{
    let map = mf0aes20();
    let needed = sizes::image_size(map);
    refuse_if(
        store.len() != store_size(map) || room < needed || !possible(tag),
        Refusal::Misfit,
    )
}

// Answered 0, the image fills the first bytes of the buffer and no others. The answer is document 01's number, which `SavesRefused` (`runs`) reads.
pub fn save(tag: Tag, store: &[u8], image: &mut [u8]) -> u8
    ensures value { result ≡ (save tag store.now image.old).number }
    ensures image_after { image.new ≡ (save tag store.now image.old).image }
{
    match check_save(tag, store, image.len()) {
        Ok(()) => {
            lay_image(mf0aes20(), tag, store, image);
            0
        }
        Err(why) => why.number(),
    }
}
