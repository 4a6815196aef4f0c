// The first 16 bytes of the tag's record as the C form hands it out: counters, failed count, state and key number (docs/C-FORM.md, "The record").
#![tactic(auto)]

ghost use Rattle.std.specs.Prelude.{◌≡◌, ◌++◌, get_or};
ghost use Rattle.std.proofs.lemmas.List.Edits.{sets};
ghost use Rattle.model.specs.Counters.{low_first};
ghost use Rattle.c_record.specs.Record.{state_byte, head_of};

use c_record::RECORD_SIZE;
use lowfirst::lay_number;
use memory::record::{key_number, state_number};
use model::{State, Tag};

// The state's number, and for one that doesn't exist the byte that it was read from. A function, since `From` for crate model's `State` may stand only there.
fn state_byte(st: State) -> u8
    ensures { result ≡ state_byte st }
{
    match st {
        State::Unknown(n) => n,
        _ => state_number(st),
    }
}

// Three counters of four bytes: three calls, since a loop was tried and would need an invariant of its own for three lines.
fn lay_counters(b: &mut [u8; RECORD_SIZE], counters: [u32; 3])
    ensures { b.new ≡ sets b.old 0 (low_first 4 (get_or counters 0 0) ++ low_first 4 (get_or counters 1 0) ++ low_first 4 (get_or counters 2 0)) }
{
    lay_number(b, 0, 4, counters[0]);
    lay_number(b, 4, 4, counters[1]);
    lay_number(b, 8, 4, counters[2]);
}

// The first 16 bytes: counters, failed count, state and key number.
#[tactic(auto, unfolding(c_record::specs::Record::head_of))]
pub fn lay_head(b: &mut [u8; RECORD_SIZE], tag: Tag)
    ensures { b.new ≡ sets b.old 0 (head_of tag.counters tag.failed tag.state) }
{
    lay_counters(b, tag.counters);
    lay_number(b, 12, 2, u32::from(tag.failed));
    b[14] = state_byte(tag.state);
    b[15] = key_number(tag.state);
}
