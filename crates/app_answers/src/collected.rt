// The collector's calls (02, request One) for a recording, each with its line: what it came to, how many bytes it took, the part's length and hash, what is
// held, a hash of the store.
ghost use Rattle.std.specs.Prelude.{◌≡◌};
ghost use Rattle.collect.specs.Collect.{fresh, state, collect_of};
ghost use Rattle.app_answers.specs.Answers.{size_of, Taken};

use collect::{Collected, Collector};

// How many of the store's first bytes are handed on, 0 where none are.
pub fn size_of(answer: Collected) -> usize
    ensures { result ≡ size_of answer }
{
    match answer {
        Collected::More => 0,
        Collected::Header(size) => size,
        Collected::Frame(size) => size,
        Collected::Refused(_) => 0,
    }
}

// One hand-over; the collector after it.
pub fn take_call(c: Collector, bytes: &[u8], store: &mut [u8]) -> Collector
    ensures { Taken c bytes.now store.old store.new result }
{
    let t = collect::collect(c, bytes, store);
    let after = t.collector;
    let answer = t.answer;
    crate::lines::say_took(
        answer,
        t.taken,
        app_recording::lent::hash(app_text::loading::first(store, size_of(answer))),
        after,
        app_recording::lent::hash(store),
    );
    after
}

// The reset; the collector after it.
pub fn reset_call(store: &[u8]) -> Collector
    ensures { result ≡ fresh }
{
    let c = collect::reset();
    crate::lines::say_reset(c, app_recording::lent::hash(store));
    c
}
