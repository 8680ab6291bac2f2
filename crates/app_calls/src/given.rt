// A stream given to the collector, some bytes at a time: each part that it hands on goes to its call, and a line says what came of it. Document 02, request
// One: "A call stops at the end of what it hands on and says how many bytes it took; the rest is given again." specs/Given says what is left of it.
ghost use Rattle.std.specs.Prelude.{◌≡◌};
ghost use Rattle.app_calls.specs.Calls.{header_left};
ghost use Rattle.app_calls.specs.Given.{fresh_desk, started, moved, header_desk, frame_desk, scene, scene_after, PartPlayed, given_to};

use crate::calls::{Lengths, Line};
use collect::{Collected, Collector};
use session::Session;

// What goes on from call to call: the session's record and the collector's, the place in the bytes that are given, the size that the last channels block gave,
// and the calls so far.
#[derive(Clone, Copy)]
pub struct Desk {
    pub s: Session,
    pub c: Collector,
    pub at: usize,
    pub width: u16,
    pub height: u16,
    pub headers: u64,
    pub frames: u64,
}

// A desk before its first byte: of any two records.
pub fn fresh(s: Session, c: Collector) -> Desk
    ensures { result ≡ fresh_desk s c }
{
    Desk {
        s: s,
        c: c,
        at: 0,
        width: 0,
        height: 0,
        headers: 0,
        frames: 0,
    }
}

// At the first of the bytes that are given.
fn start(d: Desk) -> Desk
    ensures { result ≡ started d }
{
    Desk { at: 0, ..d }
}

// After a hand-over that took so many bytes.
pub fn advance(d: Desk, c: Collector, taken: usize) -> Desk
    ensures { result ≡ moved d c taken }
{
    Desk {
        c,
        at: d.at.wrapping_add(taken),
        ..d
    }
}

// After a header call that left the record s: the size is the record's, once it has one.
pub fn after_header(d: Desk, s: Session) -> Desk
    ensures { result ≡ header_desk d s }
{
    let headers = d.headers.wrapping_add(1);
    if s.width == 0 {
        return Desk { s, headers, ..d };
    }
    Desk {
        s,
        width: s.width,
        height: s.height,
        headers,
        ..d
    }
}

pub fn after_frame(d: Desk) -> Desk
    ensures { result ≡ frame_desk d }
{
    Desk {
        frames: d.frames.wrapping_add(1),
        ..d
    }
}

// How many parts were handed on before.
fn parts(d: Desk) -> u64 {
    d.headers.wrapping_add(d.frames)
}

// The line of a header call.
fn say_header(d: Desk, number: u8, told: bool) {
    if told {
        app_text::lines::say_header(app_text::lines::ERR, d.headers.wrapping_add(1), number);
        return;
    }
    crate::lines::say_short_header(parts(d), number);
}

// One header call; a refused one leaves the record as it was.
pub fn header(d: Desk, message: &[u8], told: bool) -> Desk
    ensures { result ≡ header_desk d (header_left d.s message.now) }
{
    let s = d.s;
    let h = panel::read_header(s, message);
    say_header(d, wire::number_of(h), told);
    after_header(d, session::header_record(h, s))
}

// The line of a frame call.
fn line_of(d: Desk, told: bool) -> Line {
    if told {
        return Line::Told(d.frames.wrapping_add(1));
    }
    Line::Short(parts(d))
}

// A part that is handed on goes to its call.
fn part(
    d: Desk,
    answer: Collected,
    store: &[u8],
    picture: &mut [u16],
    n: Lengths,
    told: bool,
) -> Desk
    ensures { PartPlayed n store.now d answer picture.old picture.new result }
{
    match answer {
        Collected::More => d,
        Collected::Header(size) => header(d, app_text::loading::first(store, size), told),
        Collected::Frame(size) => {
            let message = app_text::loading::first(store, size);
            crate::calls::frame_call(d.s, message, picture, n, line_of(d, told));
            after_frame(d)
        }
        Collected::Refused(_) => d,
    }
}

// One hand-over of what is left, and the part that it hands on to its call.
fn step(
    d: Desk,
    bytes: &[u8],
    store: &mut [u8],
    picture: &mut [u16],
    n: Lengths,
    told: bool,
) -> Desk
    ensures { scene result store.new picture.new ≡ scene_after n bytes.now (scene d store.old picture.old) }
{
    let t = collect::collect(d.c, app_text::loading::rest(bytes, d.at), store);
    let c = t.collector;
    let answer = t.answer;
    part(advance(d, c, t.taken), answer, store, picture, n, told)
}

// All of the bytes: each hand-over takes at least one, or is refused and changes nothing, so as many as bytes are enough.
pub fn give(
    d: Desk,
    bytes: &[u8],
    store: &mut [u8],
    picture: &mut [u16],
    n: Lengths,
    told: bool,
) -> Desk
    ensures { scene result store.new picture.new ≡ given_to n bytes.now (scene d store.old picture.old) }
{
    let mut e = start(d);
    for _ in 0..bytes.len() {
        if bytes.len() <= e.at {
            return e;
        }
        e = step(e, bytes, store, picture, n, told);
    }
    e
}
