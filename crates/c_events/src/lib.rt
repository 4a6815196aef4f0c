// The two events in the C form, over a record buffer of the right length (docs/C-FORM.md). Any record is taken: its stored part stays as it is.
#![tactic(auto)]

ghost use Rattle.std.specs.Prelude.{◌≡◌};
ghost use Rattle.events.specs.declared.Answer.{Answer};
ghost use Rattle.model.specs.Record.{power, select};
ghost use Rattle.c_record.specs.Record.{record_of, bytes_of};

use c_record::{RECORD_SIZE, record_of};
use c_write::put_record;
use events::Answer;
use model::Tag;

// An event of the record in the buffer.
fn event<F: FnOnce(Tag) -> Answer>(b: &mut [u8; RECORD_SIZE], happen: F) -> u8
    requires { F.IsAlwaysCallable happen }
    ensures { (a : Answer) × F.post happen (record_of b.old) a × (result ≡ a.number) × (b.new ≡ bytes_of a.tag) }
{
    let answer = happen(record_of(&b[..]));
    put_record(b, answer.tag);
    answer.number
}

// The field comes on.
pub fn power(b: &mut [u8; RECORD_SIZE]) -> u8
    ensures value { result ≡ 0 }
    ensures b_after { b.new ≡ bytes_of (power (record_of b.old)) }
{
    event(b, events::power)
}

// The reader selects the tag.
pub fn select(b: &mut [u8; RECORD_SIZE]) -> u8
    ensures value { result ≡ 0 }
    ensures b_after { b.new ≡ bytes_of (select (record_of b.old)) }
{
    event(b, events::select)
}
