// Loading and saving in the C form, over a record buffer of the right length (docs/C-FORM.md).
#![tactic(auto)]

ghost use Rattle.std.specs.Prelude.{◌≡◌};
ghost use Rattle.model.specs.Image.{load, save};
ghost use Rattle.c_record.specs.Record.{record_of, handed_back};

use c_record::{RECORD_SIZE, record_of};
use c_write::hand_back;

// An image file is loaded into a store, and its record into the record buffer.
pub fn load(b: &mut [u8; RECORD_SIZE], store: &mut [u8], file: &[u8]) -> u8
    ensures value { result ≡ (load file.now store.old).number }
    ensures b_after { b.new ≡ handed_back (load file.now store.old).number (load file.now store.old).tag b.old }
    ensures store_after { store.new ≡ (load file.now store.old).store }
{
    let loaded = image::load(file, store);
    hand_back(b, loaded.number, loaded.tag);
    loaded.number
}

// The tag is saved as an image file, into the first bytes of a buffer.
pub fn save(b: &[u8], store: &[u8], file: &mut [u8]) -> u8
    ensures value { result ≡ (save (record_of b.now) store.now file.old).number }
    ensures file_after { file.new ≡ (save (record_of b.now) store.now file.old).image }
{
    image::save(record_of(b), store, file)
}
