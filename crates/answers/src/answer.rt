// The text of an answer.
ghost use Rattle.std.specs.Prelude.{◌≡◌, [], ◌∷◌, ◌++◌, ◌+◌, ◌*◌, ◌/◌, ◌%◌, ◌≤◌, ◌<◌, length};
ghost use Rattle.arrayvec.specs.ArrayVec.{array_vec_len};
ghost use Rattle.answers.specs.Answer.{letter_of, number_text, place_text, hex_text, data_text, answer_text, WrittenAt};

use arrayvec::ArrayVec;

// No answer is longer: a number, a place and the digits of 242 bytes.
pub type Text = ArrayVec<u8, 490>;

// A hexadecimal digit. Digits are made by hand here and below, and `write!` is no plainer: nothing promises that what it hands back is Ok, and `number_text` is
// no decimal number from 100 on.
#[tactic(auto, unfolding(crate::specs::Answer::letter_of))]
fn letter(d: u8) -> u8
    requires { d < 16 }
    ensures { result ≡ letter_of d }
{
    if d < 10 { b'0' + d } else { b'a' - 10 + d }
}

// The two digits of a byte: the high one is before the low one.
fn letters(b: u8) -> [u8; 2]
    ensures { result ≡ letter_of (b / 16) ∷ letter_of (b % 16) ∷ [] }
{
    [letter(b / 16), letter(b % 16)]
}

// The digits of a number below 100. Each `put` asks for the room that it takes: no type has that bound, which is of what is put.
#[tactic(auto, unfolding(crate::specs::Answer::number_text))]
fn put_number(text: &mut Text, n: u8)
    requires { array_vec_len text.old ≤ 488 }
    ensures text_after { text.new.items ≡ text.old.items ++ number_text n }
    ensures upper_bound { array_vec_len text.new ≤ array_vec_len text.old + 2 }
{
    if n >= 10 {
        text.push(b'0' + n / 10);
    }
    text.push(b'0' + n % 10);
}

// Two digits for each byte.
fn put_hex(text: &mut Text, bytes: &[u8])
    requires { array_vec_len text.old + 2 * length bytes.now ≤ 490 }
    ensures text_after { text.new.items ≡ text.old.items ++ hex_text bytes.now }
    ensures upper_bound { array_vec_len text.new ≤ array_vec_len text.old + 2 * length bytes.now }
{
    for b in bytes {
        text.try_extend_from_slice(&letters(*b)).unwrap();
    }
}

// A space and the place of the rule that stopped a WRITE; nothing where none did.
#[tactic(auto, unfolding(crate::specs::Answer::place_text))]
fn put_place(text: &mut Text, place: u8)
    requires room { array_vec_len text.old ≤ 488 }
    requires place_bound { place < 10 }
    ensures text_after { text.new.items ≡ text.old.items ++ place_text place }
    ensures upper_bound { array_vec_len text.new ≤ array_vec_len text.old + 2 }
{
    if place != 0 {
        text.push(b' ');
        text.push(b'0' + place);
    }
}

// A space and the digits; nothing for no data.
#[tactic(auto, unfolding(crate::specs::Answer::data_text))]
fn put_data(text: &mut Text, bytes: &[u8])
    requires { array_vec_len text.old + 2 * length bytes.now ≤ 489 }
    ensures text_after { text.new.items ≡ text.old.items ++ data_text bytes.now }
    ensures upper_bound { array_vec_len text.new ≤ array_vec_len text.old + 2 * length bytes.now + 1 }
{
    if !bytes.is_empty() {
        text.push(b' ');
        put_hex(text, bytes);
    }
}

// The line for a number, a place and data, in place of what the text held. A place is a number, and no `Barred`: this crate knows no tag, and 0 prints
// nothing, as the definition has it. A text that is returned is slower: the bench program took 7 % longer.
#[tactic(auto, unfolding(crate::specs::Answer::answer_text))]
pub fn answer_into(text: &mut Text, number: u8, place: u8, bytes: &[u8])
    requires place_bound { place < 10 }
    requires bytes_len_bound { length bytes.now ≤ 242 }
    ensures { text.new.items ≡ answer_text number place bytes.now }
{
    text.clear();
    put_number(text, number);
    put_place(text, place);
    put_data(text, bytes);
    text.push(b'\n');
}

// The same over the start of a buffer of any length, for a caller that has one; what passes its end is not stored. Returns how long the line is.
pub fn answer(out: &mut [u8], number: u8, place: u8, bytes: &[u8]) -> usize
    requires place_bound { place < 10 }
    requires bytes_len_bound { length bytes.now ≤ 242 }
    ensures written_at { WrittenAt out.old out.new 0 result (answer_text number place bytes.now) }
    ensures upper_bound { result ≤ 490 }
{
    let mut text = ArrayVec::new();
    answer_into(&mut text, number, place, bytes);
    octets::lay(out, 0, &text);
    text.len()
}
