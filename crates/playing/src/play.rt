// A session with a tag from a text: the calls are made, and every answer is compared.
//
// A text has four parts with `|` between them: a name, the changes of the image that is loaded, lines with `;` between them, and the changes of the
// image that is saved. A line is a call, in fields with `,` between them: its name; `P` for power, `S` for select, or the digits of a frame; the
// number it is to answer; the reply; and the random block, which may be left out where the frame uses none.
use comparing::answer::{SIZE, Told, UNWRITTEN};
use comparing::{answer, file};
use events::Answer;
use model::Tag;
use reports::report::STDOUT_FILENO;
use reports::{digits, parts};

fn field(line: &[u8], n: usize) -> &[u8] {
    parts::part(line, b',', n)
}

// The frame of a line is sent. A count stands beside the frame's buffer, as `reports::digits::lay` says. Record and store are passed apart, as the calls take them.
fn sent(tag: Tag, store: &mut [u8], line: &[u8], buffer: &mut [u8; SIZE]) -> Answer {
    let mut frame = [0; 64];
    let n = digits::lay(field(line, 1), 0, &mut frame);
    let random: [u8; 16] = digits::octets_of(field(line, 4), 0);
    tag::frame(tag, store, &frame[..n], &random, buffer)
}

// The call of a line is made. The first byte of its field tells which.
fn called(tag: Tag, store: &mut [u8], line: &[u8], buffer: &mut [u8; SIZE]) -> Answer {
    match octets::at(field(line, 1), 0) {
        b'P' => tag::power(tag),
        b'S' => tag::select(tag),
        _ => sent(tag, store, line, buffer),
    }
}

// The lines one after the other. A `;` ends a line, so that there is none behind the last, and none in an empty text.
fn played(name: &[u8], lines: &[u8], tag: Tag, store: &mut [u8]) -> Tag {
    let mut now = tag;
    if lines.is_empty() {
        return now;
    }
    for line in lines
        .strip_suffix(b";")
        .unwrap_or(lines)
        .split(|b| *b == b';')
    {
        let mut buffer = [UNWRITTEN; SIZE];
        let got = called(now, store, line, &mut buffer);
        io::write_all(STDOUT_FILENO, name);
        answer::line(
            field(line, 0),
            &Told {
                number: got.number,
                reply: got.reply,
                buffer,
            },
            &Told::of_texts(field(line, 2), field(line, 3)),
        );
        now = got.tag;
    }
    now
}

// A session from the loading of an image to its saving.
pub fn session(image: &[u8], text: &[u8]) {
    let name = parts::part(text, b'|', 0);
    let mut store = [0; 240];
    let loaded = file::loaded(name, image, parts::part(text, b'|', 1), &mut store);
    let left = played(name, parts::part(text, b'|', 2), loaded, &mut store);
    file::saved(name, image, parts::part(text, b'|', 3), left, &store);
}
