// What a decision says: the reply buffer is written through `speak` alone. Data is laid over its start, and CRC_A is put behind it. The buffer is C's, so each
// function that lays bytes over its start returns how many they are.
ghost use Rattle.std.specs.Prelude.{◌≡◌, ◌∷◌, ◌+◌, ◌-◌, ◌≤◌, length};
ghost use Rattle.framing.specs.Laid.{Laid};
ghost use Rattle.model.specs.Counters.{low_first};
ghost use Rattle.model.specs.Frame.{said_of, reply_of, laid_over};
ghost use Rattle.reply.specs.Speaking.{data_of, said_size};

use memory::pages::Pages;
use model::{Reply, Say, Tag};

// How many pages lie from p to q.
fn pages_between(p: u8, q: u8) -> usize
    ensures value { result ≡ q + 1 - p }
    ensures upper_bound { result ≤ 256 }
{
    (q as usize + 1).saturating_sub(p as usize)
}

// Three bytes of a counter, low byte first.
fn lay_count(v: u32, reply: &mut [u8]) -> usize
    ensures { Laid reply.old reply.new result (low_first 3 v) }
{
    lowfirst::lay_number(reply, 0, 3, v);
    3
}

// A byte and a block.
fn lay_block(b: u8, block: [u8; 16], reply: &mut [u8]) -> usize
    requires { 1 ≤ length reply.old }
    ensures { Laid reply.old reply.new result (b ∷ block) }
{
    octets::put(reply, 0, b);
    octets::lay(reply, 1, &block);
    17
}

// The bytes of a reply without their CRC_A; returns how many they are. Silence and a nibble have none.
#[tactic(auto, unfolding(crate::specs::Speaking::data_of, model::specs::Reading::fast_range))]
fn lay_data(pages: &Pages, tag: Tag, say: Say, block: [u8; 16], reply: &mut [u8]) -> usize
    requires { said_size say ≤ length reply.old }
    ensures { Laid reply.old reply.new result (data_of pages.now.map tag pages.now.bytes.now block say) }
{
    match say {
        Say::Silence | Say::Nibble(_) => 0,
        Say::Window(p) => shown::window::lay_window(pages, tag.state, p, reply),
        Say::Range(p, q) => shown::lay_pages(pages, tag.state, p, pages_between(p, q), reply),
        Say::Count(n) => lay_count(counters::counter(tag, n), reply),
        Say::Block(b) => lay_block(b, block, reply),
    }
}

// The reply. The pages are those before the frame stores; only the bytes that are said are written.
#[tactic(auto, unfolding(model::specs::Frame::said_of, crate::specs::Speaking::data_of))]
pub fn speak(pages: &Pages, tag: Tag, say: Say, block: [u8; 16], reply: &mut [u8]) -> Reply
    requires { said_size say ≤ length reply.old }
    ensures value { result ≡ reply_of (said_of pages.now.map tag pages.now.bytes.now block say) }
    ensures reply_after { reply.new ≡ laid_over reply.old (said_of pages.now.map tag pages.now.bytes.now block say) }
{
    let n = lay_data(pages, tag, say, block, reply);
    match say {
        Say::Silence => Reply::Silence,
        Say::Nibble(k) => Reply::Nibble(k),
        Say::Window(_) | Say::Range(_, _) | Say::Count(_) | Say::Block(_) => {
            Reply::Bytes(framing::seal(reply, n))
        }
    }
}
