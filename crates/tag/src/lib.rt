// The calls of the tag: power, select, frame, load and save. None asks anything of its caller; each is its definition of the same name in `model`. Four only
// hand on what a crate below does: the theorems of `runs` are about the promises that stand here, so the calls are no `pub use` of it.
#![tactic(auto)]

ghost use Rattle.std.specs.Prelude.{◌≡◌, length};
ghost use Rattle.model.specs.declared.Barred.TheVariants.{Open};
ghost use Rattle.model.specs.declared.Reply.TheVariants.{Silence};
ghost use Rattle.model.specs.Record.{power, select};
ghost use Rattle.model.specs.Frame.{frame, reply_of, laid_over};
ghost use Rattle.model.specs.Image.{load, save};

use effect::storing;
use events::Answer;
use image::Loading;
use memory::pages::Pages;
use model::Tag;
use reply::speaking;

// The field comes on: the tag waits.
pub fn power(tag: Tag) -> Answer
    ensures { result ≡ record { number = 0; reply = Silence; reason = Open; tag = power tag } }
{
    events::power(tag)
}

// The reader selects the tag, whatever its state.
pub fn select(tag: Tag) -> Answer
    ensures { result ≡ record { number = 0; reply = Silence; reason = Open; tag = select tag } }
{
    events::select(tag)
}

// A frame, with sixteen random bytes and a buffer for the reply. A WRITE that is refused says which rule stopped it.
pub fn frame(tag: Tag, store: &mut [u8], f: &[u8], random: &[u8], reply: &mut [u8]) -> Answer
    ensures number_value { result.number ≡ (frame tag store.old f.now random.now (length reply.old)).number }
    ensures reply_value { result.reply ≡ reply_of (frame tag store.old f.now random.now (length reply.old)).said }
    ensures reason_value { result.reason ≡ (frame tag store.old f.now random.now (length reply.old)).reason }
    ensures tag_value { result.tag ≡ (frame tag store.old f.now random.now (length reply.old)).tag }
    ensures store_after { store.new ≡ (frame tag store.old f.now random.now (length reply.old)).store }
    ensures reply_after { reply.new ≡ laid_over reply.old (frame tag store.old f.now random.now (length reply.old)).said }
{
    let pages = Pages {
        map: image::mf0aes20(),
        bytes: &store[..],
    };
    let d = deciding::decide(&pages, tag, f, random, reply.len());
    let block = d.block;
    let said = speaking::speak(&pages, tag, d.say, block, reply);
    storing::store_after(store, d.effect);
    Answer {
        number: d.number,
        reply: said,
        reason: d.reason,
        tag: storing::tag_after(tag, d),
    }
}

// An image file is loaded into a store.
pub fn load(file: &[u8], store: &mut [u8]) -> Loading
    ensures number_value { result.number ≡ (load file.now store.old).number }
    ensures tag_value { result.tag ≡ (load file.now store.old).tag }
    ensures store_after { store.new ≡ (load file.now store.old).store }
{
    image::load(file, store)
}

// The tag is saved as an image file, into the first bytes of a buffer.
pub fn save(tag: Tag, store: &[u8], file: &mut [u8]) -> u8
    ensures value { result ≡ (save tag store.now file.old).number }
    ensures file_after { file.new ≡ (save tag store.now file.old).image }
{
    image::save(tag, store, file)
}
