// What a decision stores: a page of the store, a counter or the failed count. No other code of a frame writes them.
ghost use Rattle.std.specs.Prelude.{◌≡◌, [], ◌∷◌, ◌*◌};
ghost use Rattle.std.proofs.lemmas.List.Edits.{sets};
ghost use Rattle.model.specs.Frame.{store_after, counters_after, failed_after, tag_after};

use model::{Decision, Effect, Quad, Tag};

// The four bytes of page p. Four stores and not `octets::lay`, which requires that the page lies in the store.
fn store_page(store: &mut [u8], p: u8, q: Quad)
    ensures { store.new ≡ sets store.old (4 * p) (q.a ∷ q.b ∷ q.c ∷ q.d ∷ []) }
{
    let first = 4 * (p as usize);
    octets::put(store, first, q.a);
    octets::put(store, first + 1, q.b);
    octets::put(store, first + 2, q.c);
    octets::put(store, first + 3, q.d);
}

// The pages after an effect.
#[tactic(auto, unfolding(model::specs::Frame::store_after))]
pub fn store_after(store: &mut [u8], e: Effect)
    ensures { store.new ≡ store_after store.old e }
{
    match e {
        Effect::Page(p, q) => store_page(store, p, q),
        Effect::Keep | Effect::Counter(_, _) | Effect::Failed(_) => {}
    }
}

// The counters after an effect; a counter that doesn't exist stores nothing.
#[tactic(auto, unfolding(model::specs::Frame::counters_after))]
pub fn counters_after(cs: [u32; 3], e: Effect) -> [u32; 3]
    ensures { result ≡ counters_after cs e }
{
    match e {
        Effect::Counter(n, v) => {
            let mut after = cs;
            let i = n as usize;
            if i < after.len() {
                after[i] = v;
            }
            after
        }
        Effect::Keep | Effect::Page(_, _) | Effect::Failed(_) => cs,
    }
}

// The failed-authentication count after an effect.
#[tactic(auto, unfolding(model::specs::Frame::failed_after))]
pub fn failed_after(c: u16, e: Effect) -> u16
    ensures { result ≡ failed_after c e }
{
    match e {
        Effect::Failed(v) => v,
        Effect::Keep | Effect::Page(_, _) | Effect::Counter(_, _) => c,
    }
}

// The record after a decision.
#[tactic(auto, unfolding(model::specs::Frame::tag_after))]
pub fn tag_after(tag: Tag, d: Decision) -> Tag
    ensures { result ≡ tag_after tag d }
{
    let counters = counters_after(tag.counters, d.effect);
    let challenge = d.challenge;
    Tag {
        counters,
        failed: failed_after(tag.failed, d.effect),
        state: d.state,
        challenge,
        ..tag
    }
}
