// The calls of the tag in the C form: numbers and byte buffers, the record as 48 bytes (docs/C-FORM.md). None asks anything of its caller but that
// no pointer is null and the buffers of one call lie apart. A record buffer of another length is answered 10, and 10 changes no buffer.
#![tactic(auto)]

ghost use Rattle.std.specs.Prelude.{◌≡◌};
ghost use Rattle.tag_c.specs.Calls.{power, select, frame, load, save};

use c_answer::answer_of;
use c_record::{RECORD_SIZE, record_of};
use model::Reply;
use numbers::Refusal;

// The field comes on. Any record is taken: its stored part stays as it is.
#[tactic(auto, unfolding(crate::specs::Calls::fits, crate::specs::Calls::power))]
pub fn kz_power(record: &mut [u8]) -> u8
    ensures value { result ≡ (power «record».old).number }
    ensures record_after { «record».new ≡ (power «record».old).bytes }
{
    let Some(record) = record.as_mut_array::<RECORD_SIZE>() else {
        return Refusal::Misfit.number();
    };
    c_events::power(record)
}

// The reader selects the tag, whatever its state and its record. Beside kz_power, since C names both.
#[tactic(auto, unfolding(crate::specs::Calls::fits, crate::specs::Calls::select))]
pub fn kz_select(record: &mut [u8]) -> u8
    ensures value { result ≡ (select «record».old).number }
    ensures record_after { «record».new ≡ (select «record».old).bytes }
{
    let Some(record) = record.as_mut_array::<RECORD_SIZE>() else {
        return Refusal::Misfit.number();
    };
    c_events::select(record)
}

// A frame, with sixteen random bytes and a buffer for the reply.
#[tactic(auto, unfolding(crate::specs::Calls::fits, crate::specs::Calls::frame))]
pub fn kz_frame(
    record: &mut [u8],
    store: &mut [u8],
    f: &[u8],
    random: &[u8],
    reply: &mut [u8],
) -> u64
    ensures value { result ≡ (frame «record».old store.old f.now random.now reply.old).answer }
    ensures record_after { «record».new ≡ (frame «record».old store.old f.now random.now reply.old).bytes }
    ensures store_after { store.new ≡ (frame «record».old store.old f.now random.now reply.old).store }
    ensures reply_after { reply.new ≡ (frame «record».old store.old f.now random.now reply.old).reply }
{
    let Some(record) = record.as_mut_array::<RECORD_SIZE>() else {
        return answer_of(Refusal::Misfit.number(), 0, Reply::Silence);
    };
    let a = tag::frame(record_of(&record[..]), store, f, random, reply);
    c_told::told(record, a)
}

// An image file is loaded into a store, and its record into the record buffer.
#[tactic(auto, unfolding(crate::specs::Calls::fits, crate::specs::Calls::load))]
pub fn kz_load(record: &mut [u8], store: &mut [u8], file: &[u8]) -> u8
    ensures value { result ≡ (load «record».old store.old file.now).number }
    ensures record_after { «record».new ≡ (load «record».old store.old file.now).bytes }
    ensures store_after { store.new ≡ (load «record».old store.old file.now).store }
{
    let Some(record) = record.as_mut_array::<RECORD_SIZE>() else {
        return Refusal::Misfit.number();
    };
    c_image::load(record, store, file)
}

// The tag is saved as an image file, into the first bytes of a buffer.
#[tactic(auto, unfolding(crate::specs::Calls::fits, crate::specs::Calls::save))]
pub fn kz_save(record: &[u8], store: &[u8], file: &mut [u8]) -> u8
    ensures value { result ≡ (save «record».now store.now file.old).number }
    ensures file_after { file.new ≡ (save «record».now store.now file.old).file }
{
    let Some(record) = record.as_array::<RECORD_SIZE>() else {
        return Refusal::Misfit.number();
    };
    c_image::save(record, store, file)
}
