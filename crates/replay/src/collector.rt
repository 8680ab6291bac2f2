// The records of a recording for the collector (document 02, request One): a fresh one over a store, another length of the store, a hand-over, a reset, and a
// stream in pieces whose parts go to their calls. A store holds A5 where nothing was gathered in it.
use app_calls::calls::Lengths;
use app_records::taking::{Record, Stored};
use collect::Collector;
use session::Session;

// The collector's record, of the store's memory the bytes that are lent and those that are filled.
#[derive(Clone, Copy)]
pub struct Store {
    pub c: Collector,
    pub lent: usize,
    pub filled: usize,
}

// There is no store so long.
fn none(k: Store) -> Store {
    Store {
        lent: usize::MAX,
        ..k
    }
}

// 'k': a fresh collector over n bytes of store, all lent.
fn set_collector(k: Store, store: &mut [u8], n: usize) -> Store {
    if store.len() < n {
        return none(k);
    }
    store[0..n].fill(0xA5);
    Store {
        c: collect::reset(),
        lent: n,
        filled: n,
    }
}

// 'l': from now on the store's first n bytes are lent; memory that was not there before is filled.
fn set_store(k: Store, store: &mut [u8], n: usize) -> Store {
    let filled = k.filled;
    if store.len() < n {
        return none(k);
    }
    if filled < n {
        store[filled..n].fill(0xA5);
    }
    Store {
        lent: n,
        filled: filled.max(n),
        ..k
    }
}

fn after(k: Store, c: Collector) -> Store {
    Store { c, ..k }
}

// 't': one hand-over.
fn take(k: Store, bytes: &[u8], store: &mut [u8]) -> Store {
    let n = k.lent;
    if store.len() < n {
        return none(k);
    }
    after(
        k,
        app_answers::collected::take_call(k.c, bytes, &mut store[0..n]),
    )
}

// 'r': the reset.
fn reset(k: Store, store: &[u8]) -> Store {
    after(
        k,
        app_answers::collected::reset_call(app_text::loading::first(store, k.lent)),
    )
}

// One record but for 'g'.
pub fn stored(kind: Stored, k: Store, r: Record, m: &[u8], store: &mut [u8]) -> Store {
    match kind {
        Stored::Collector => set_collector(k, store, app_records::taking::figure(m, 0)),
        Stored::Length => set_store(k, store, app_records::taking::figure(m, 0)),
        Stored::Take => take(k, app_records::taking::one(m, r), store),
        Stored::Reset => reset(k, store),
    }
}

// How many pieces there are, with the last.
fn turns_of(cuts: &[u8]) -> usize {
    cuts.len() / 4 + 1
}

// The length of a piece, by its number; past the last all that is left.
fn size_at(cuts: &[u8], i: usize) -> usize {
    if cuts.len() / 4 <= i {
        return usize::MAX;
    }
    app_records::taking::figure(cuts, i)
}

// The next bytes of a message from a place on, as many as are asked for, or all that are left.
fn piece(m: &[u8], at: usize, size: usize) -> &[u8] {
    let left = app_text::loading::rest(m, at);
    if left.len() < size {
        return left;
    }
    app_text::loading::first(left, size)
}

// What a 'g' is given: the message in pieces, then all that is left.
fn pieces(
    e: app_calls::given::Desk,
    message: &[u8],
    cuts: &[u8],
    store: &mut [u8],
    picture: &mut [u16],
    n: Lengths,
) -> app_calls::given::Desk {
    let mut g = e;
    let mut at: usize = 0;
    for i in 0..turns_of(cuts) {
        let p = piece(message, at, size_at(cuts, i));
        g = app_calls::given::give(g, p, store, picture, n, false);
        at = at.wrapping_add(p.len());
    }
    g
}

// The session's record and the collector's after a 'g'.
#[derive(Clone, Copy)]
pub struct Played {
    pub s: Session,
    pub c: Collector,
}

fn lists_fit(n: Lengths) -> bool {
    n.one <= 8192 && n.two <= 8192 && n.three <= 8192
}

// The line of a 'g', and what it leaves.
fn said(e: app_calls::given::Desk, h: u64) -> Played {
    app_answers::lines::say_given(e.headers == 0 && e.frames == 0, e.c, e.s, h);
    Played { s: e.s, c: e.c }
}

// 'g': a stream in pieces, each rest given again until it is taken or refused; every part that is handed on goes to its call. Store and picture are what is lent;
// none where there are no lists, no store or no picture as asked for.
pub fn give(
    e: app_calls::given::Desk,
    r: Record,
    m: &[u8],
    store: &mut [u8],
    lent: usize,
    picture: &mut [u16],
    words: usize,
) -> Option<Played> {
    let store = store.get_mut(..lent)?;
    let picture = picture.get_mut(..words)?;
    let n = app_records::frames::lengths(m);
    if !lists_fit(n) {
        return None;
    }
    let cuts = app_records::taking::one(m, r);
    let g = pieces(e, app_records::taking::two(m, r), cuts, store, picture, n);
    Some(said(g, app_recording::lent::hash(picture)))
}
