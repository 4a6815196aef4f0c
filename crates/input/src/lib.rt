// Standard input, in pieces as they come: what is read at once is played before the next reading, and its answers are written.
#![tactic(auto)]

ghost use Rattle.std.specs.Prelude.{◌≡◌, [], OnErr};

use arrayvec::ArrayVec;
use model::Tag;
use progress::{Gathered, Over, Progress};
use std::io::{Input, Read};
use text::lines;

// What a script is played on, how far it is played, what is gathered of its answers, and what is held of a line that is not yet whole.
#[derive(Drop)]
struct Script<'a> {
    store: &'a mut [u8],
    progress: Progress,
    gathered: Gathered,
    held: ArrayVec<u8, 127>,
}

impl Script<'_> {
    // What is held is played as a line, and is held no longer.
    fn play_held(&mut self) -> Result<(), Over>
        ensures held_after { self.new.held.items ≡ [] }
        ensures gathered_after { OnErr result (self.new.gathered.text.items ≡ []) }
    {
        let played = self
            .progress
            .play_line(self.store, &self.held, &mut self.gathered);
        self.held.clear();
        played
    }

    // The end of a line: it is played where it lies, or with what was held of it.
    fn complete_line(&mut self, piece: &[u8]) -> Result<(), Over>
        ensures held_after { self.new.held.items ≡ [] }
        ensures gathered_after { OnErr result (self.new.gathered.text.items ≡ []) }
    {
        if self.held.is_empty() {
            return self
                .progress
                .play_line(self.store, piece, &mut self.gathered);
        }
        lines::hold(&mut self.held, piece);
        self.play_held()
    }

    // The start or the middle of a line is held. A line of 127 bytes is too long to be a good one, and is played at once, as a bad one.
    fn begin_line(&mut self, piece: &[u8]) -> Result<(), Over>
        ensures { OnErr result (self.new.gathered.text.items ≡ []) }
    {
        lines::hold(&mut self.held, piece);
        if self.held.is_full() {
            return self.play_held();
        }
        Ok(())
    }

    // What was read, line by line, until the script ends. Nothing that it gathers is left for the next reading.
    fn play_chunk(&mut self, chunk: &[u8]) -> Result<(), Over>
        ensures { self.new.gathered.text.items ≡ [] }
    {
        let mut rest = chunk;
        while let Some((line, behind)) = lines::cut_line(rest) {
            self.complete_line(line)?;
            rest = behind;
        }
        self.begin_line(rest)?;
        self.gathered.write()
    }

    // The input has ended: bytes behind the last newline are a line too.
    fn play_last(&mut self) -> Result<(), Over>
        ensures { self.new.gathered.text.items ≡ [] }
    {
        if !self.held.is_empty() {
            self.play_held()?;
        }
        self.gathered.write()
    }
}

// What is read is played, until the input or the script ends. Nothing is gathered where a reading begins, nor where it ends.
// A proved loop has to end, and nothing says that an input does. So it counts its turns, up to a number that no run comes to.
fn play_all<R: Read>(reader: &mut R, script: &mut Script) -> Result<(), Over>
    requires { script.old.gathered.text.items ≡ [] }
    ensures { script.new.gathered.text.items ≡ [] }
{
    let mut chunk = [0; 65536];
    for _ in 0..u64::MAX {
        match reader.read(&mut chunk).map_err(|_| Over::Unread)? {
            0 => return script.play_last(),
            n => script.play_chunk(&chunk[..n])?,
        }
    }
    Ok(())
}

// Plays what is read, until the input or the script ends. A reading that fails ends the script; what is held of a line is not played then. A bad line
// is told in what is written, where that can be written; of a reading or a writing that failed nothing is told, and nothing is left to do.
pub fn play_input<R: Input>(rt: &R, tag: Tag, store: &mut [u8]) {
    let mut script = Script {
        store,
        progress: Progress::new(tag),
        gathered: Gathered::new(),
        held: ArrayVec::new(),
    };
    let _ = play_all(&mut rt.reader(), &mut script);
}
