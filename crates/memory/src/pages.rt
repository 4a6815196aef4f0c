// The pages that a tag stores.
ghost use Rattle.std.specs.Prelude.{◌≡◌};
ghost use Rattle.model.specs.Map.{byte_of};

use model::Map;

// A store, with the map that says what each of its pages is for. The record is no part of it: of the functions that take pages a third read no record, and
// another third only its state, so that they would ask for more than they need.
#[derive(Clone, Copy)]
pub struct Pages<'a> {
    pub map: Map,
    pub bytes: &'a [u8],
}

impl Pages<'_> {
    // Byte k of a page, and 0 past the end of the store.
    pub fn byte(&self, page: u8, k: u8) -> u8
        ensures { result ≡ byte_of self.now.bytes.now page k }
    {
        octets::byte_of(self.bytes, page, k)
    }
}
