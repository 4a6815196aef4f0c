// What a command is given.
use memory::pages::Pages;
use model::Tag;

// The pages, the record, the frame, and the random bytes that came with it. No fact stands here: most commands are carried out or refused whatever they are
// given, and may ask no more of it. The two parts of AUTHENTICATE ask in their clauses for what the earlier checks have seen.
#[derive(Clone, Copy)]
pub struct Asked<'a> {
    pub pages: Pages<'a>,
    pub tag: Tag,
    pub frame: &'a [u8],
    pub random: &'a [u8],
}
