// The places of an image file and of the pages in it, as the functions that loading and saving are proved by give them: a line for each.
// The scripts in tools/ read this program's output, crates/layout/stdout, and have no other table of places.
#![tactic(auto)]

mod pages;
mod places;
mod report;

fn main() {
    let map = image::mf0aes20();
    places::print(map);
    pages::print(map);
}
