// The image file.
ghost use Rattle.io.specs.Counts.{IsPrefixLen};

use image::Loading;
use std::fs::{File, Files};
use std::io::Read;

// One byte more than an image has is read, so that a longer file is seen to be one.
const MOST: usize = 272;

// Reads until the buffer is full, the file ends or a read fails, and returns how many bytes it put at the start of the buffer. By hand and into a buffer:
// std's `read_to_end` takes memory from the heap, and where there is none a good image would be refused.
fn read_full<F: Read>(file: &mut F, image: &mut [u8]) -> usize
    ensures { IsPrefixLen result image.new }
{
    let mut done = 0;
    while done < image.len() {
        match file.read(&mut image[done..]) {
            Ok(0) | Err(_) => return done,
            Ok(n) => done += n,
        }
    }
    done
}

// What the file holds, as far as the buffer reaches; nothing where it can't be opened.
fn bytes_of<R: Files>(rt: &R, name: &str, image: &mut [u8]) -> usize
    ensures { IsPrefixLen result image.new }
{
    File::open(rt, name).map_or(0, |mut file| read_full(&mut file, image))
}

// Of a file that can't be opened there are no bytes, and where a reading fails those before it: the load refuses an image that lacks some.
pub fn loaded<R: Files>(rt: &R, name: &str, store: &mut [u8]) -> Loading {
    let mut image = [0; MOST];
    let n = bytes_of(rt, name, &mut image);
    tag::load(&image[..n], store)
}
