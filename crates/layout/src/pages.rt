// The number of pages, and the page of each use.
use crate::report::line;
use model::Map;

pub fn print(map: Map) {
    let lines = [
        ("pages", map.pages),
        ("page last", memory::sizes::last_page(map)),
        ("page locks", map.locks),
        ("page otp", map.otp),
        ("page pairs", map.pairs),
        ("page pairlocks", map.pairlocks),
        ("page cfg0", map.cfg0),
        ("page cfg1", map.cfg1),
        ("page keylocks", map.keylocks),
        ("page key0", map.key0),
        ("page key1", map.key1),
    ];
    for (name, page) in lines {
        line(name, &[usize::from(page)]);
    }
}
