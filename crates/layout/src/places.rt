// The sections of an image: each line has the place of the section's count byte, how many bytes stand behind it, and the count byte that `save` writes.
use crate::report::line;
use image_read::zero_tag;
use model::Map;
use sections::sizes::{counters_at, failed_at, image_size, key_at};

pub fn print(map: Map) {
    let image = saved();
    line("image", &[image_size(map)]);
    let sections = [
        ("section pages", 0, counters_at(map)),
        ("section counters", counters_at(map), failed_at(map)),
        ("section failed", failed_at(map), key_at(map)),
        ("section originality", key_at(map), image_size(map)),
    ];
    for (name, at, next) in sections {
        let size = next.saturating_sub(at + 1);
        line(name, &[at, size, usize::from(octets::at(&image, at))]);
    }
}

// The image of a tag that is all zero.
fn saved() -> [u8; 271] {
    let mut image = [0; 271];
    image::save(zero_tag(), &[0; 240], &mut image);
    image
}
