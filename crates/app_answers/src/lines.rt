// The lines of the calls that only a recording makes: 01's number, its values, a letter for the work lists, a hash of the lent memory. No section of document 01 is
// made true here; the expected output of the recording has the same lines.
use app_text::lines::OUT;
use bands::Quant;
use caps::{Ack, Caps};
use collect::{Collected, Collector};
use quants::Quants;
use session::Session;
use settings::Settings;
use wire::Numbered;

// A number behind a blank.
fn say_next(n: u64) {
    app_text::lines::say_number(OUT, b" ", n);
}

// Numbers, each behind a blank.
fn say_row(row: &[u64]) {
    for n in row {
        say_next(*n);
    }
}

// 01's number, which is the first of its line.
fn say_first(number: u8) {
    app_text::lines::say_number(OUT, b"", number as u64);
}

// The end of the line.
fn end() {
    app_text::lines::say(OUT, b"\n");
}

// A hash, behind a blank, and the end of the line.
fn end_with(h: u64) {
    app_text::lines::say_hex(OUT, b" ", h, 16);
    end();
}

// A number alone.
pub fn say_alone(number: u8)
    ensures { Unit }
{
    say_first(number);
    end();
}

pub fn say_hash(number: u8, value: usize, h: u64)
    ensures { Unit }
{
    say_first(number);
    say_row(&[value as u64]);
    end_with(h);
}

pub fn say_written(number: u8, n: usize, letter: u8, h: u64)
    ensures { Unit }
{
    say_first(number);
    say_row(&[n as u64]);
    app_text::lines::say(OUT, &[b' ', letter]);
    end_with(h);
}

// The end of a 'g': the collector's refusal, what it holds, the record and the picture's hash. `none` where no part was handed on.
pub fn say_given(none: bool, c: Collector, s: Session, h: u64)
    ensures { Unit }
{
    if none {
        app_text::lines::say(OUT, b"-");
    }
    say_row(&[c.refused as u64, c.held as u64, c.seen as u64]);
    say_row(&[
        s.headers as u64,
        s.width as u64,
        s.height as u64,
        s.mode as u64,
    ]);
    end_with(h);
}

// The hash of a part, or that there is none.
fn say_part(size: usize, part: u64) {
    if size == 0 {
        app_text::lines::say(OUT, b" -");
        return;
    }
    app_text::lines::say_hex(OUT, b" ", part, 16);
}

// What a hand-over came to.
fn say_answer(answer: Collected) {
    match answer {
        Collected::More => app_text::lines::say(OUT, b"w"),
        Collected::Header(_) => app_text::lines::say(OUT, b"h"),
        Collected::Frame(_) => app_text::lines::say(OUT, b"f"),
        Collected::Refused(refusal) => say_first(refusal.number()),
    }
}

// One hand-over: what it came to, how many bytes it took, the part's length and hash, what is held, the store's hash.
pub fn say_took(answer: Collected, taken: usize, part: u64, c: Collector, h: u64)
    ensures { Unit }
{
    let size = crate::collected::size_of(answer);
    say_answer(answer);
    say_row(&[taken as u64, size as u64]);
    say_part(size, part);
    say_row(&[c.held as u64, c.seen as u64]);
    end_with(h);
}

// A reset: what is held, and the store's hash.
pub fn say_reset(c: Collector, h: u64)
    ensures { Unit }
{
    app_text::lines::say_number(OUT, b"", c.held as u64);
    say_row(&[c.seen as u64]);
    end_with(h);
}

// A container's number and fields.
pub fn say_caps(number: u8, c: Caps)
    ensures { Unit }
{
    let a = c.first;
    let b = c.second;
    say_first(number);
    say_row(&[c.flags as u64, c.n as u64]);
    say_row(&[a.flags as u64, a.mode as u64, b.flags as u64, b.mode as u64]);
    end();
}

// A frame acknowledge capability's number and count.
pub fn say_ack_cap(number: u8, count: u32)
    ensures { Unit }
{
    say_first(number);
    say_row(&[count as u64]);
    end();
}

// A frame acknowledge message's number and nine fields.
pub fn say_ack(number: u8, a: Ack)
    ensures { Unit }
{
    say_first(number);
    say_row(&[
        a.version as u64,
        a.source as u64,
        a.share as u64,
        a.pad as u64,
        a.stream as u64,
    ]);
    say_row(&[
        a.uncompressed as u64,
        a.compression as u64,
        a.compressed as u64,
        a.frame as u64,
    ]);
    end();
}

// Two quantisers as the byte that has them, low half first.
fn say_pair(low: u8, high: u8) {
    app_text::lines::say_hex(OUT, b"", low as u64 + 16 * high as u64, 2);
}

// A set as its five bytes, behind a blank.
fn say_set(q: Quant) {
    app_text::lines::say(OUT, b" ");
    for i in 0..5 {
        say_pair(q.v[2 * i], q.v[2 * i + 1]);
    }
}

// The two sets, or that there are none.
fn say_sets(number: u8, q: Quants) {
    if number != 0 {
        app_text::lines::say(OUT, b" - -");
        return;
    }
    say_set(q.luma);
    say_set(q.chroma);
}

// Settings: the number, the sets and the mode.
pub fn say_settings(number: u8, s: Settings)
    ensures { Unit }
{
    let q = s.quants;
    say_first(number);
    say_sets(number, q);
    say_row(&[s.mode as u64]);
    end();
}
