// The tag's record written back as bytes, as the C form hands it out (docs/C-FORM.md, "The record").
#![tactic(auto)]

ghost use Rattle.std.specs.Prelude.{◌≡◌};
ghost use Rattle.c_record.specs.Record.{bytes_of, handed_back};

use c_head::lay_head;
use c_record::RECORD_SIZE;
use model::Tag;

// The bytes of a record, over the whole buffer. By octets::lay, as copy_from_slice is slower: tried, a READ took 188 ns in place of 160.
pub fn put_record(b: &mut [u8; RECORD_SIZE], tag: Tag)
    ensures { b.new ≡ bytes_of tag }
{
    lay_head(b, tag);
    octets::lay(b, 16, &tag.originality);
    octets::lay(b, 32, &tag.challenge);
}

// The record after a call: 1 and 10 leave the buffer unwritten. Of a number, as the definition is.
#[tactic(auto, unfolding(c_record::specs::Record::keeps, c_record::specs::Record::handed_back))]
pub fn hand_back(b: &mut [u8; RECORD_SIZE], number: u8, next: Tag)
    ensures { b.new ≡ handed_back number next b.old }
{
    if !matches!(number, 1 | 10) {
        put_record(b, next);
    }
}
