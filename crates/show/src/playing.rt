// Reads a stream piece by piece and gives each to the collector; the parts that it hands on go to their calls, each with a line on standard error. Document 02,
// request One. A block of a foreign type is said, and passed over by its blockLen; at any other refusal the stream ends. specs/Play says what the picture shows
// then, whatever pieces the input gave, on either glass. What lends no picture is here; `drawing` has the rest.
ghost use Rattle.std.specs.Prelude.{◌≡◌};
ghost use Rattle.app_text.specs.First.{first_of};
ghost use Rattle.app_calls.specs.Given.{desk_part};
ghost use Rattle.show.specs.Play.{foreign_of, behind_of, placed, anew_desk, settled_desk, Filled, Given, Handed};

use app_calls::given::Desk;
use app_text::files::Source;
use app_text::lines::ERR;
use collect::{Collected, Collector};
use std::io::Read;

// Where the desk stands, how many bytes the piece has that was read last, what the last hand-over came to, and whether it goes on.
#[derive(Clone, Copy)]
pub struct Turn {
    pub d: Desk,
    pub n: usize,
    pub answer: Collected,
    pub go: bool,
}

pub fn begin(d: Desk) -> Turn
    ensures { (result.d ≡ d) × (result.n ≡ 0) }
{
    Turn {
        d: d,
        n: 0,
        answer: Collected::More,
        go: true,
    }
}

// The desk at a place of the piece.
fn at_place(d: Desk, at: usize) -> Desk
    ensures { result ≡ placed d at }
{
    Desk { at, ..d }
}

// Reads at most so many bytes: how many came, 0 at the end of the input.
fn read_piece(source: &mut Source, piece: &mut [u8], size: usize) -> usize {
    match piece.get_mut(..size) {
        Some(part) => source.read(part).unwrap_or(0),
        None => 0,
    }
}

// The next piece, where this one is at its end; what was passed over beyond it is passed over in the next.
fn fill(t: Turn, source: &mut Source, size: usize, piece: &mut [u8]) -> Turn
    ensures { Filled t.d (first_of piece.old t.n) result.d (first_of piece.new result.n) }
{
    let d = t.d;
    let end = app_text::loading::first(piece, t.n).len();
    if d.at < end {
        return t;
    }
    let n = read_piece(source, piece, size);
    Turn {
        d: at_place(d, d.at - end),
        n: n,
        answer: Collected::More,
        go: n != 0,
    }
}

// Is this a head of a foreign type that can be passed over?
fn foreign(c: Collector) -> bool
    ensures { result ≡ foreign_of c }
{
    if c.refused != 3 {
        return false;
    }
    6 <= c.head / 65536
}

// The collector anew, behind the block whose head was refused.
fn renewed(d: Desk) -> Desk
    ensures { result ≡ anew_desk d }
{
    Desk {
        c: collect::reset(),
        at: d.at.wrapping_add(behind(d.c)),
        ..d
    }
}

// How many bytes of a block stand behind its head.
fn behind(c: Collector) -> usize
    ensures { result ≡ behind_of c }
{
    (c.head / 65536).saturating_sub(6)
}

// After a hand-over: a foreign block is said and passed over.
fn settle(d: Desk) -> Desk
    ensures { result ≡ settled_desk d }
{
    let c = d.c;
    if foreign(c) {
        app_text::lines::say(ERR, b"block: ");
        app_text::lines::say_refused(ERR, c.refused);
        return renewed(d);
    }
    d
}

// Any other refusal ends the stream.
fn on_with(c: Collector, go: bool) -> bool {
    c.refused == 0 && go
}

// A part that is handed on: a header goes to its call, a frame is counted.
fn part(d: Desk, answer: Collected, store: &[u8]) -> Desk
    ensures { result ≡ desk_part store.now d answer }
{
    match answer {
        Collected::More => d,
        Collected::Header(size) => {
            app_calls::given::header(d, app_text::loading::first(store, size), true)
        }
        Collected::Frame(_) => app_calls::given::after_frame(d),
        Collected::Refused(_) => d,
    }
}

// One hand-over of what is left of a piece.
fn hand_over(t: Turn, bytes: &[u8], store: &mut [u8]) -> Turn
    ensures { Given t.d bytes.now store.old store.new result.d result.answer × (result.n ≡ t.n) }
{
    let d = t.d;
    let k = collect::collect(d.c, bytes, store);
    let c = k.collector;
    let answer = k.answer;
    let e = settle(part(app_calls::given::advance(d, c, k.taken), answer, store));
    Turn {
        d: e,
        n: t.n,
        answer: answer,
        go: on_with(e.c, t.go),
    }
}

// The next hand-over, of what is left or of what is read.
pub fn next(t: Turn, source: &mut Source, size: usize, piece: &mut [u8], store: &mut [u8]) -> Turn
    ensures { Handed t.d (first_of piece.old t.n) store.old (first_of piece.new result.n) store.new result.d result.answer }
{
    let a = fill(t, source, size, piece);
    let bytes = app_text::loading::rest(app_text::loading::first(piece, a.n), a.d.at);
    hand_over(a, bytes, store)
}
