// The bench program: an image by name, lines from standard input, and an answer for each (document 01, "Image file and bench program").
#![tactic(auto)]

mod file;

use answers::answer::answer_into;
use arrayvec::ArrayVec;
use std::env::Env;

// Standard output.
const STDOUT_FILENO: i32 = 1;

// An image that is refused or can't be opened is answered by its number and nothing more. A name that is no UTF-8 can't be opened, nor can a missing one.
// Where an answer can't be written there is nothing left to do.
// The name has a count beside its buffer, as `rt.arg` reads it: `env::args` would give Strings, but refuses all arguments where one is no UTF-8, so that the
// program would answer otherwise. A longer name than that had no file before either.
fn main(rt: HostRuntime) {
    let mut name = [0; 4096];
    let n = rt.arg(1, &mut name).unwrap_or(0);
    let mut store = [0; 240];
    let loading = file::loaded(&rt, str::from_utf8(&name[..n]).unwrap_or(""), &mut store);
    if loading.number != 0 {
        let mut text = ArrayVec::new();
        answer_into(&mut text, loading.number, 0, b"");
        io::write_all(STDOUT_FILENO, &text);
    } else {
        input::play_input(&rt, loading.tag, &mut store);
    }
}
