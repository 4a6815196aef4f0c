// Document 01, "Counters": READ_CNT and INCR_CNT, 009 8.5.9, 10.5 and 10.6.
#![tactic(auto)]

ghost use Rattle.std.specs.Prelude.{◌≡◌, ◌+◌, ltb};
ghost use Rattle.model.specs.Record.{counter, highest_counter};
ghost use Rattle.model.specs.Counters.{counter_barred, read_cnt_number, increment, incr_cnt_number};
ghost use Rattle.numbers.specs.Refusals.{number_told};

use memory::pages::Pages;
use memory::record;
use model::{Quad, State, Tag};
use numbers::{Refusal, refuse_if};

// Counter n, and 0 for a number that no counter has.
pub fn counter(tag: Tag, n: u8) -> u32
    ensures { result ≡ counter tag n }
{
    // the three by themselves: of `tag` the whole record would lie in memory to be looked up in
    let counters = tag.counters;
    counters.get(usize::from(n)).copied().unwrap_or(0)
}

// Counter 2 needs AUTHENTICATED, unless its setting opens it.
#[tactic(auto, unfolding(model::specs::Counters::counter_barred))]
fn counter_barred(st: State, opened: bool, n: u8) -> bool
    ensures { result ≡ counter_barred st opened n }
{
    n == 2 && !opened && !record::is_authenticated(st)
}

// READ_CNT of counter n.
#[tactic(auto, unfolding(model::specs::Counters::read_cnt_number, model::specs::Numbers::first, model::specs::Numbers::number_if))]
pub fn check_read_cnt(pages: &Pages, st: State, n: u8) -> Result<(), Refusal>
    ensures { number_told result ≡ read_cnt_number pages.now.map st pages.now.bytes.now n }
{
    refuse_if(2 < n, Refusal::Argument)?;
    refuse_if(counter_barred(st, pages.read_open(), n), Refusal::Protected)
}

// The first three value bytes, low first; the fourth is ignored.
pub fn increment(q: Quad) -> u32
    ensures { result ≡ increment q }
{
    u32::from_le_bytes([q.a, q.b, q.c, 0])
}

// The sum would pass the highest value of a counter. 64 bits, so that it is exact for every record.
fn passes_end(tag: Tag, n: u8, q: Quad) -> bool
    ensures { result ≡ ltb highest_counter (counter tag n + increment q) }
{
    u64::from(record::HIGHEST_COUNTER) < u64::from(counter(tag, n)) + u64::from(increment(q))
}

// INCR_CNT of counter n by the value q.
#[tactic(auto, unfolding(model::specs::Counters::incr_cnt_number, model::specs::Numbers::first, model::specs::Numbers::number_if))]
pub fn check_incr_cnt(pages: &Pages, tag: Tag, n: u8, q: Quad) -> Result<(), Refusal>
    ensures { number_told result ≡ incr_cnt_number pages.now.map tag pages.now.bytes.now n q }
{
    refuse_if(2 < n, Refusal::Argument)?;
    refuse_if(
        counter_barred(tag.state, pages.incr_open(), n),
        Refusal::Protected,
    )?;
    refuse_if(passes_end(tag, n, q), Refusal::CounterEnd)
}
