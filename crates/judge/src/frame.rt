// Number 10 of a frame (document 01, "The numbers a call answers with"), and the data of one.
ghost use Rattle.std.specs.Prelude.{◌≡◌};
ghost use Rattle.model.specs.Frame.{misfit, data4};

use memory::pages::Pages;
use memory::{record, sizes};
use model::{Quad, Tag};

// A wrong store, reply buffer or random block, or a record that no tag can have. room is the reply buffer's length.
#[tactic(auto, unfolding(model::specs::Frame::misfit))]
pub fn misfit(pages: &Pages, tag: Tag, random: &[u8], room: usize) -> bool
    ensures { result ≡ misfit pages.now.map tag pages.now.bytes.now random.now room }
{
    pages.bytes.len() != sizes::store_size(pages.map)
        || room < sizes::reply_size(pages.map)
        || random.len() != 16
        || !record::possible(tag)
}

// The four bytes of a frame behind its code and its page or counter number.
pub fn data_of(f: &[u8]) -> Quad
    ensures { result ≡ data4 f.now }
{
    Quad {
        a: octets::at(f, 2),
        b: octets::at(f, 3),
        c: octets::at(f, 4),
        d: octets::at(f, 5),
    }
}
