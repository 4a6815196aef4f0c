// How far a script is played, and what a line does to it. Text is gathered in a buffer of 65,536 bytes.
// It is written by `io`: std prints through a handle, and `input::play_input` may ask its caller for no more than `Input`.
#![tactic(auto)]

ghost use Rattle.std.specs.Prelude.{◌≡◌, [], ◌≤◌, OnErr};
ghost use Rattle.arrayvec.specs.ArrayVec.{array_vec_len};
ghost use Rattle.player.specs.Play.{next_count, turn};

use answers::answer::Text;
use arrayvec::ArrayVec;
use model::Tag;

// Where the answers are written: standard output. `reports::report` has the same number, but is for the programs that compare.
const STDOUT_FILENO: i32 = 1;

// The text of a line has at most 490 bytes.
const ROOM: usize = 65046;

// Why a script ends before its input does: at a bad line, or where an answer can't be written or the input can't be read.
#[derive(Clone, Copy)]
pub enum Over {
    BadLine,
    Unwritten,
    Unread,
}

// The record, and the lines played so far.
#[derive(Clone, Copy)]
pub struct Progress {
    pub tag: Tag,
    pub count: u64,
}

// The text of the last line, and the text gathered of all that is not yet written. Apart from `Progress`, which is a value to copy.
#[derive(Drop)]
pub struct Gathered {
    line: Text,
    text: ArrayVec<u8, 65536>,
}

impl Gathered {
    pub fn new() -> Gathered
        ensures { result.text.items ≡ [] }
    {
        Gathered {
            line: ArrayVec::new(),
            text: ArrayVec::new(),
        }
    }

    // What was gathered is written. A write that fails ends the script, so that no answer is missing before another; a bad line that comes next is still told
    // (docs/DECISIONS.md, D81).
    pub fn write(&mut self) -> Result<(), Over>
        ensures { self.new.text.items ≡ [] }
    {
        let done = io::write_all(STDOUT_FILENO, &self.text);
        self.text.clear();
        if done { Ok(()) } else { Err(Over::Unwritten) }
    }

    // What is gathered is written where it leaves no room for the longest text.
    fn make_room(&mut self) -> Result<(), Over>
        ensures room { array_vec_len self.new.text ≤ 65046 }
        ensures text_after { OnErr result (self.new.text.items ≡ []) }
    {
        if self.text.len() > ROOM {
            self.write()
        } else {
            Ok(())
        }
    }

    // The text of the last line is put behind what is gathered.
    fn gather(&mut self)
        requires { array_vec_len self.old.text ≤ 65046 }
    {
        self.text
            .try_extend_from_slice(self.line.as_slice())
            .unwrap();
    }

    // The fixed text and the number of a line that is none of the three; what was gathered comes before it.
    fn bad_line(&mut self, count: u64) -> Result<(), Over>
        ensures { self.new.text.items ≡ [] }
    {
        self.write()?;
        io::write_all(STDOUT_FILENO, b"bad line ");
        io::print_decimal(STDOUT_FILENO, count);
        io::write_all(STDOUT_FILENO, b"\n");
        Err(Over::BadLine)
    }
}

impl Progress {
    pub fn new(tag: Tag) -> Progress
        ensures tag_value { result.tag ≡ tag }
        ensures count_value { result.count ≡ 0 }
    {
        Progress { tag, count: 0 }
    }

    // A whole line is played. Where what is gathered can't be written to make room, its text is dropped and the script ends, as at a bad one; nothing gathered is
    // left then.
    pub fn play_line(
        &mut self,
        store: &mut [u8],
        line: &[u8],
        gathered: &mut Gathered,
    ) -> Result<(), Over>
        ensures count_value { self.new.count ≡ next_count self.old.count }
        ensures tag_value { self.new.tag ≡ (turn (record { tag = self.old.tag; store = store.old }) (next_count self.old.count) line.now).box.tag }
        ensures store_after { store.new ≡ (turn (record { tag = self.old.tag; store = store.old }) (next_count self.old.count) line.now).box.store }
        ensures gathered_after { OnErr result (gathered.new.text.items ≡ []) }
    {
        self.count = player::next_count(self.count);
        let room = gathered.make_room();
        match player::play_into(self.tag, store, line, self.count, &mut gathered.line) {
            Some(tag) => {
                self.tag = tag;
                room?;
                gathered.gather();
                Ok(())
            }
            None => gathered.bad_line(self.count),
        }
    }
}
