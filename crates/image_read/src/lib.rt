// What an image holds beside its pages (document 01, "Image file").
#![tactic(auto)]

ghost use Rattle.std.specs.Prelude.{◌≡◌};
ghost use Rattle.model.specs.Record.{zero_tag};
ghost use Rattle.model.specs.Image.{tag_of};
ghost use Rattle.sections.specs.Sections.{counters_of};

use fields::{block_of, number2, number3};
use model::{Map, State, Tag};
use sections::sizes;

// The three counters, one by one: `from_fn` would hide their places, and is no plainer.
#[tactic(auto, unfolding(sections::specs::Sections::counters_of))]
fn counters_of(map: Map, i: &[u8]) -> [u32; 3]
    ensures { result ≡ counters_of map i.now }
{
    let at = sizes::counters_at(map);
    [number3(i, at + 1), number3(i, at + 4), number3(i, at + 7)]
}

// The tag of an image, in WAITING.
#[tactic(auto, unfolding(model::specs::Image::tag_of, sections::specs::Sections::counters_of))]
pub fn tag_of(map: Map, i: &[u8]) -> Tag
    ensures { result ≡ tag_of map i.now }
{
    Tag {
        counters: counters_of(map, i),
        failed: number2(i, sizes::failed_at(map) + 1),
        originality: block_of(i, sizes::key_at(map) + 1),
        ..zero_tag()
    }
}

// The record that is all zero, in WAITING.
pub fn zero_tag() -> Tag
    ensures { result ≡ zero_tag }
{
    Tag {
        counters: [0; 3],
        failed: 0,
        originality: [0; 16],
        state: State::Waiting,
        challenge: [0; 16],
    }
}
