// The static library for C (docs/C-FORM.md): each exported call is the call of the same name in `tag_c`, with the same promise.
#![tactic(auto)]

ghost use Rattle.std.specs.Prelude.{◌≡◌};
ghost use Rattle.tag_c.specs.Calls.{power, select, frame, load, save};

#[unsafe(no_mangle)]
pub extern "C" fn kz_power(record: &mut [u8]) -> u8
    ensures value { result ≡ (power «record».old).number }
    ensures record_after { «record».new ≡ (power «record».old).bytes }
{
    tag_c::kz_power(record)
}

#[unsafe(no_mangle)]
pub extern "C" fn kz_select(record: &mut [u8]) -> u8
    ensures value { result ≡ (select «record».old).number }
    ensures record_after { «record».new ≡ (select «record».old).bytes }
{
    tag_c::kz_select(record)
}

#[unsafe(no_mangle)]
pub extern "C" fn kz_frame(
    record: &mut [u8],
    store: &mut [u8],
    f: &[u8],
    random: &[u8],
    reply: &mut [u8],
) -> u64
    ensures value { result ≡ (frame «record».old store.old f.now random.now reply.old).answer }
    ensures record_after { «record».new ≡ (frame «record».old store.old f.now random.now reply.old).bytes }
    ensures store_after { store.new ≡ (frame «record».old store.old f.now random.now reply.old).store }
    ensures reply_after { reply.new ≡ (frame «record».old store.old f.now random.now reply.old).reply }
{
    tag_c::kz_frame(record, store, f, random, reply)
}

#[unsafe(no_mangle)]
pub extern "C" fn kz_load(record: &mut [u8], store: &mut [u8], file: &[u8]) -> u8
    ensures value { result ≡ (load «record».old store.old file.now).number }
    ensures record_after { «record».new ≡ (load «record».old store.old file.now).bytes }
    ensures store_after { store.new ≡ (load «record».old store.old file.now).store }
{
    tag_c::kz_load(record, store, file)
}

#[unsafe(no_mangle)]
pub extern "C" fn kz_save(record: &[u8], store: &[u8], file: &mut [u8]) -> u8
    ensures value { result ≡ (save «record».now store.now file.old).number }
    ensures file_after { file.new ≡ (save «record».now store.now file.old).file }
{
    tag_c::kz_save(record, store, file)
}
