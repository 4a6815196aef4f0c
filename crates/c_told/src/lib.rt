// What a frame hands back in the C form, over a record buffer of the right length (docs/C-FORM.md).
#![tactic(auto)]

ghost use Rattle.std.specs.Prelude.{◌≡◌, ◌<◌};
ghost use Rattle.model.specs.Writing.{barred_place};
ghost use Rattle.c_record.specs.Record.{handed_back};
ghost use Rattle.c_answer.specs.Answer.{answer_of, count_of};

use c_answer::answer_of;
use c_record::RECORD_SIZE;
use c_write::hand_back;
use events::Answer;
use numbers::barred_place;

// The record goes into its buffer, and number, reply and rule into the answer.
pub fn told(b: &mut [u8; RECORD_SIZE], a: Answer) -> u64
    requires { count_of a.reply < 65536 }
    ensures value { result ≡ answer_of a.number (barred_place a.reason) a.reply }
    ensures b_after { b.new ≡ handed_back a.number a.tag b.old }
{
    hand_back(b, a.number, a.tag);
    answer_of(a.number, barred_place(a.reason), a.reply)
}
