// A line of a script, played.
#![tactic(auto)]

ghost use Rattle.std.specs.Prelude.{◌≡◌, [], ◌-◌, ◌≤◌, ◌<◌, length, take, Some, MatchOption, IfNone};
ghost use Rattle.crc.specs.CrcA.{with_crc};
ghost use Rattle.model.specs.Writing.{barred_place};
ghost use Rattle.script.specs.Line.{frame_bytes};
ghost use Rattle.answers.specs.Answer.{answer_text, WrittenAt};
ghost use Rattle.script.specs.declared.line.Line.TheVariants.{Frame};
ghost use Rattle.player.specs.Play.{next_count, random_of, heard_data, good_turn, bad_turn, turn_of, turn};

use answers::answer::{Text, answer_into};
use arrayvec::ArrayVec;
use events::Answer;
use model::{Reply, Tag};
use numbers::barred_place;
use script::line;
use script::line::Line;

// Sixteen copies of the line number modulo 256: a cast has to keep its value, so `as` alone does not cut a number.
fn random_of(count: u64) -> [u8; 16]
    ensures { result ≡ random_of count }
{
    [(count % 256) as u8; 16]
}

// The frame that a line asks for, with its CRC_A; returns how long it is. A buffer with a length beside, since `framing::seal` works in one, as the C library
// needs (no heap).
fn frame_of(line: &[u8], n: u8, frame: &mut [u8; 64]) -> usize
    requires { n ≤ 62 }
    ensures upper_bound { result ≤ 64 }
    ensures frame_after { take result frame.new ≡ with_crc (frame_bytes line.now n) }
{
    line::lay_frame(line, n, frame);
    framing::seal(frame, n as usize)
}

// The data of a reply: all but its CRC_A; none for silence and a nibble.
fn heard_data(r: Reply, reply: &[u8]) -> &[u8]
    ensures { result.now ≡ heard_data r reply.now }
{
    match r {
        Reply::Bytes(n) => &reply[..n.saturating_sub(2).min(reply.len())],
        Reply::Nibble(_) | Reply::Silence => b"",
    }
}

// An event's answer has no data. Returns the record that is left.
fn event_turn(a: Answer, text: &mut Text) -> Tag
    ensures tag_value { result ≡ a.tag }
    ensures text_after { text.new.items ≡ answer_text a.number (barred_place a.reason) [] }
{
    answer_into(text, a.number, barred_place(a.reason), b"");
    a.tag
}

// A frame of n bytes that a line asks for, sent. Returns the record that is left.
fn sent(tag: Tag, store: &mut [u8], line: &[u8], n: u8, count: u64, text: &mut Text) -> Tag
    requires { n ≤ 62 }
    ensures { turn_of (Some (Frame n)) (record { tag = tag; store = store.old }) count line.now ≡ good_turn text.new.items result store.new }
{
    let mut space = [0; 64];
    let end = frame_of(line, n, &mut space);
    let random = random_of(count);
    let mut reply = [0; 242];
    let a = tag::frame(tag, store, &space[..end], &random, &mut reply);
    let data = heard_data(a.reply, &reply);
    answer_into(text, a.number, barred_place(a.reason), data);
    a.tag
}

// The number of the line after so many. No input is long enough for the largest.
pub fn next_count(count: u64) -> u64
    ensures { result ≡ next_count count }
{
    count.saturating_add(1)
}

// A line played: the record that is left, and the line's text. None where it is a bad line, which has no text, and leaves all as it was.
// The record and the store are passed apart, as the calls of document 01 take them.
#[tactic(auto, unfolding(crate::specs::Play::turn, model::specs::Calls::step))]
pub fn play_into(
    tag: Tag,
    store: &mut [u8],
    line: &[u8],
    count: u64,
    text: &mut Text,
) -> Option<Tag>
    ensures turn_value { let t = turn (record { tag = tag; store = store.old }) count line.now in
        MatchOption result (t ≡ bad_turn tag store.new) (λ next. t ≡ good_turn text.new.items next store.new) }
    ensures store_kept { IfNone result (store.new ≡ store.old) }
    ensures text_kept { IfNone result (text.new.items ≡ text.old.items) }
{
    Some(match line::line_of(line)? {
        Line::Power => event_turn(tag::power(tag), text),
        Line::Select => event_turn(tag::select(tag), text),
        Line::Frame(n) => sent(tag, store, line, n, count, text),
    })
}

// What a line leaves: the record, how long its text is, and whether it is a bad line.
#[derive(Clone, Copy)]
pub struct Turn {
    pub tag: Tag,
    pub end: usize,
    pub bad: bool,
}

// A line played, for a caller that has a buffer: its text is laid over the start. A bad line has none, and leaves all as it was.
pub fn play(tag: Tag, store: &mut [u8], line: &[u8], count: u64, out: &mut [u8]) -> Turn
    ensures tag_value { result.tag ≡ (turn (record { tag = tag; store = store.old }) count line.now).box.tag }
    ensures bad_value { result.bad ≡ (turn (record { tag = tag; store = store.old }) count line.now).bad }
    ensures end_bound { result.end ≤ 490 }
    ensures written_at { WrittenAt out.old out.new 0 result.end (turn (record { tag = tag; store = store.old }) count line.now).text }
    ensures store_after { store.new ≡ (turn (record { tag = tag; store = store.old }) count line.now).box.store }
{
    let mut text = ArrayVec::new();
    match play_into(tag, store, line, count, &mut text) {
        Some(next) => {
            octets::lay(out, 0, &text);
            Turn {
                tag: next,
                end: text.len(),
                bad: false,
            }
        }
        None => Turn {
            tag,
            end: 0,
            bad: true,
        },
    }
}
