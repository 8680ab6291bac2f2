// A stream given to the collector, some bytes at a time; each part that it hands on goes on tidied: header blocks by `tidy::headers`, frames by `tidy::frame`. The
// filter keeps a session record of its own, by the headers that it passed on, as the panel behind it will. What is longer than the store is passed on as it came, up
// to its end (crate app_stream), and the filter goes on behind it.
use app_stream::skip::Skip;
use app_text::lines::{ERR, OUT};
use collect::{Collected, Collector};
use session::Session;
use tidy::frames::Tidied;
use tidy::headers::{Gave, Waiting};
use wire::{Numbered, Refusal};

// What goes on from part to part: the sender's number; the session's record, the collector's, the headers that wait, what is passed over, the place in the bytes that
// are given; how many frames went on and how many of them changed; whether all goes on as it came, whether it could be written, and whether more is to come.
#[derive(Clone, Copy)]
pub struct Desk {
    pub sender: u8,
    pub s: Session,
    pub c: Collector,
    pub w: Waiting,
    pub k: Skip,
    pub at: usize,
    pub frames: u64,
    pub changed: u64,
    pub plain: bool,
    pub good: bool,
    pub go: bool,
}

// Nothing waits.
fn none() -> Waiting {
    Waiting {
        on: 0,
        first: 0,
        second: 0,
    }
}

pub fn fresh(sender: u8) -> Desk {
    Desk {
        sender: sender,
        s: session::open(0),
        c: collect::reset(),
        w: none(),
        k: app_stream::skip::nothing(),
        at: 0,
        frames: 0,
        changed: 0,
        plain: false,
        good: true,
        go: true,
    }
}

// Writes the first of some bytes to the output.
fn put(bytes: &[u8], n: usize) -> bool {
    io::write_all(OUT, app_text::loading::first(bytes, n))
}

// The block at a place, by its blockLen; nothing where it is not whole.
fn block_at(m: &[u8], at: usize) -> &[u8] {
    let left = app_text::loading::rest(m, at);
    if left.len() < 6 {
        return &left[..0];
    }
    app_text::loading::first(left, wire::le32_at(left, 2))
}

// The record after the header blocks that stand one behind the other in some bytes.
fn read_all(from: Session, m: &[u8]) -> Session {
    let mut s = from;
    let mut at: usize = 0;
    for _ in 0..m.len() {
        if m.len() <= at {
            return s;
        }
        let b = block_at(m, at);
        s = session::header_record(session::take_header(s, b), s);
        at = at.wrapping_add(b.len());
    }
    s
}

// After bytes that were passed on.
fn passed(d: Desk, s: Session, w: Waiting, good: bool) -> Desk {
    Desk {
        s,
        w,
        good: d.good && good,
        ..d
    }
}

// What goes on of a header block; where the lent memory did not do, the block as it came.
fn headers_on(d: Desk, g: Gave, block: &[u8], out: &[u8]) -> Desk {
    match g.answer {
        Ok(n) => {
            let good = put(out, n);
            let s = read_all(d.s, app_text::loading::first(out, n));
            passed(d, s, g.waiting, good)
        }
        Err(_) => {
            let same = put(block, block.len());
            passed(d, d.s, d.w, same)
        }
    }
}

// A header block.
fn header(d: Desk, block: &[u8], held: &mut [u8], out: &mut [u8]) -> Desk {
    let g = tidy::headers::give_header(d.w, block, held, out);
    headers_on(d, g, block, out)
}

// The headers that wait, as they came: a frame or the end of the input is there before the third of them.
fn let_go(d: Desk, held: &[u8], out: &mut [u8]) -> Desk {
    let n = wire::count_of(tidy::headers::flush(d.w, held, out).answer);
    let good = put(out, n);
    let s = read_all(d.s, app_text::loading::first(out, n));
    passed(d, s, none(), good)
}

// What was changed of a frame.
fn say_cut(frame: u64, cut: usize) {
    if cut == 0 {
        return;
    }
    app_text::lines::say_number(ERR, b"frame ", frame);
    app_text::lines::say_number(ERR, b": ", cut as u64);
    app_text::lines::say(ERR, b" codes cut\n");
}

// After a frame of which so many codes were cut.
fn counted(d: Desk, cut: usize, good: bool) -> Desk {
    Desk {
        frames: d.frames.wrapping_add(1),
        changed: d.changed.wrapping_add(u64::from(cut != 0)),
        good: d.good && good,
        ..d
    }
}

// What goes on of a frame; where the lent memory did not do, the frame as it came.
fn frame_on(d: Desk, answer: Result<Tidied, Refusal>, message: &[u8], out: &[u8]) -> Desk {
    match answer {
        Ok(t) => {
            say_cut(d.frames.wrapping_add(1), t.cut);
            let good = put(out, t.size);
            counted(d, t.cut, good)
        }
        Err(_) => {
            let same = put(message, message.len());
            counted(d, 0, same)
        }
    }
}

// A frame, behind the headers that still wait.
fn frame(from: Desk, message: &[u8], held: &[u8], list: &mut [i32], out: &mut [u8]) -> Desk {
    let d = let_go(from, held, out);
    let t = tidy::frames::tidy_frame(d.sender, d.s, message, list, out);
    frame_on(d, t, message, out)
}

// The bytes of a head that waits beside the store, as many as are there.
fn put_head(c: Collector) -> bool {
    put(&(c.head as u64).to_le_bytes(), c.seen as usize)
}

// What the collector holds, as it came: the store's first bytes and the head that waits.
fn put_held(c: Collector, store: &[u8]) -> bool {
    let a = put(store, c.held);
    let b = put_head(c);
    a && b
}

// From here on everything goes on as it came.
fn plainly(d: Desk, number: u8, good: bool) -> Desk {
    app_text::lines::say(ERR, b"tidy: from here on as it came: ");
    app_text::lines::say_refused(ERR, number);
    Desk {
        c: collect::reset(),
        plain: true,
        good: d.good && good,
        ..d
    }
}

// What is longer than the store is passed on as it came, and counts as a frame.
fn over(d: Desk, number: u8, good: bool) -> Desk {
    let frames = d.frames.wrapping_add(1);
    app_text::lines::say_frame(ERR, frames, number, 0);
    Desk {
        c: collect::reset(),
        k: app_stream::skip::begin(d.c),
        frames,
        good: d.good && good,
        ..d
    }
}

// A head that the collector refused: what it holds goes on as it came.
fn refuse(from: Desk, refusal: Refusal, store: &[u8], held: &[u8], out: &mut [u8]) -> Desk {
    let d = let_go(from, held, out);
    let good = put_held(d.c, store);
    match refusal {
        Refusal::Room => over(d, refusal.number(), good),
        _ => plainly(d, refusal.number(), good),
    }
}

// A part that is handed on.
fn part(
    d: Desk,
    answer: Collected,
    store: &[u8],
    held: &mut [u8],
    list: &mut [i32],
    out: &mut [u8],
) -> Desk {
    match answer {
        Collected::More => d,
        Collected::Header(n) => header(d, app_text::loading::first(store, n), held, out),
        Collected::Frame(n) => frame(d, app_text::loading::first(store, n), held, list, out),
        Collected::Refused(refusal) => refuse(d, refusal, store, held, out),
    }
}

// After a hand-over that took so many bytes.
fn advance(d: Desk, c: Collector, k: Skip, taken: usize) -> Desk {
    Desk {
        c,
        k,
        at: d.at.wrapping_add(taken),
        ..d
    }
}

// Bytes of what is passed over, as they came; at a head inside that has no length all goes on as it came from there on.
fn pass(d: Desk, left: &[u8]) -> Desk {
    let p = app_stream::skip::pass_over(d.k, left);
    let k = p.skip;
    let good = put(left, p.taken);
    let e = advance(d, d.c, k, p.taken);
    let number = app_stream::skip::left_by(k).refused;
    if number != 0 {
        return plainly(e, number, good);
    }
    passed(e, e.s, e.w, good)
}

// One hand-over of what is left, or all of it as it came.
fn step(
    d: Desk,
    bytes: &[u8],
    store: &mut [u8],
    held: &mut [u8],
    list: &mut [i32],
    out: &mut [u8],
) -> Desk {
    let left = app_text::loading::rest(bytes, d.at);
    if d.plain {
        let good = put(left, left.len());
        let e = advance(d, d.c, d.k, left.len());
        return passed(e, e.s, e.w, good);
    }
    if app_stream::skip::goes_on(d.k) {
        return pass(d, left);
    }
    let t = collect::collect(d.c, left, store);
    let c = t.collector;
    let answer = t.answer;
    part(advance(d, c, d.k, t.taken), answer, store, held, list, out)
}

// At the first of n bytes that are given. More is to come behind them, but at the end of the input and where the output could not be written.
fn start(d: Desk, n: usize) -> Desk {
    Desk {
        at: 0,
        go: 0 < n && d.good,
        ..d
    }
}

// All of the bytes: each hand-over takes at least one, or is the first that is refused.
pub fn give(
    d: Desk,
    bytes: &[u8],
    store: &mut [u8],
    held: &mut [u8],
    list: &mut [i32],
    out: &mut [u8],
) -> Desk {
    let mut e = start(d, bytes.len());
    for _ in 0..bytes.len().wrapping_add(1) {
        if bytes.len() <= e.at {
            return e;
        }
        e = step(e, bytes, store, held, list, out);
    }
    e
}

// The end of the input: what waits and what is not whole goes on as it came.
pub fn finish(from: Desk, store: &[u8], held: &[u8], out: &mut [u8]) -> Desk {
    let d = let_go(from, held, out);
    if d.plain {
        return d;
    }
    let good = put_held(d.c, store);
    passed(d, d.s, d.w, good)
}
