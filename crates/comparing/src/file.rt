// An image file, document 01: loaded into a tag, and saved from it.
use crate::answer;
use model::Tag;
use reports::report::STDOUT_FILENO;
use reports::{digits, parts, report};

// A change of a file: its first byte is a place, and the others are laid over the file from there on.
fn change(file: &mut [u8], text: &[u8]) {
    let at = usize::from(text::digits::octet(text, 0)).min(file.len());
    digits::lay(text, 1, &mut file[at..]);
}

// The file of a text, with up to two changes. Image and changes are passed apart: they are two texts, and the image is the same for all sessions.
fn lay(image: &[u8], changes: &[u8], file: &mut [u8]) {
    digits::lay(image, 0, file);
    change(file, parts::part(changes, b';', 0));
    change(file, parts::part(changes, b';', 1));
}

// The line of a number that is to be 0. By `io`, as reports::report says.
fn number_line(name: &[u8], call: &[u8], number: u8) {
    io::write_all(STDOUT_FILENO, name);
    report::line(call, &[number], &[0]);
}

// The file is loaded into a store.
pub fn loaded(name: &[u8], image: &[u8], changes: &[u8], store: &mut [u8]) -> Tag {
    let mut file = [0u8; 271];
    lay(image, changes, &mut file);
    let got = tag::load(&file, store);
    number_line(name, b"load", got.number);
    got.tag
}

// The file is saved into a buffer with one byte more than it has.
pub fn saved(name: &[u8], image: &[u8], changes: &[u8], tag: Tag, store: &[u8]) {
    let mut file = [answer::UNWRITTEN; 272];
    number_line(name, b"save", tag::save(tag, store, &mut file));
    let mut expected = [answer::UNWRITTEN; 272];
    lay(image, changes, &mut expected);
    io::write_all(STDOUT_FILENO, name);
    report::line(b"saved image", &file, &expected);
}
