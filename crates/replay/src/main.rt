// Makes the calls of a recording (standard input) on the public functions of `panel`, and prints one line for each: 01's number, its values, the record, and a
// hash of the lent memory. A record of the recording is a letter and little-endian numbers of four bytes, then bytes (`taking`); lent lists hold 7 and lent
// output A5. A record is read whole before its call is made: a call gets the record's memory and, of the memory that is lent, only what it needs
// (`app_records`). The calls and their lines are in `app_calls` and `app_answers`; here is the loop.
#![tactic(auto)]

mod collector;
mod records;

use crate::collector::Store;
use crate::records::Desk;
use app_calls::calls::Lengths;
use app_recording::read::Input;
use app_records::taking::{Kind, Record, Stored};

// A stream through the collector, on a picture of 16-bit words: recordings have no other.
fn given(d: Desk, r: Record, m: &[u8], store: &mut [u8], picture: &mut [u16]) -> Desk {
    if d.wide {
        return crate::records::bad(d);
    }
    let e = app_calls::given::fresh(d.s, d.c);
    match crate::collector::give(e, r, m, store, d.lent, picture, d.picture) {
        Some(p) => crate::records::with_records(d, p.s, p.c),
        None => crate::records::bad(d),
    }
}

// One record for the collector, but for a stream.
fn collected(kind: Stored, d: Desk, r: Record, m: &[u8], store: &mut [u8]) -> Desk {
    let k = Store {
        c: d.c,
        lent: d.lent,
        filled: d.filled,
    };
    crate::records::with_store(d, crate::collector::stored(kind, k, r, m, store))
}

// A frame call on the picture that is lent.
fn framed_on(d: Desk, bytes: &[u8], n: Lengths, picture: &mut [u16], wide: &mut [u32]) -> bool {
    app_records::frames::frame(d.s, bytes, n, d.picture, d.wide, picture, wide)
}

// One record.
fn make(
    d: Desk,
    r: Record,
    m: &[u8],
    out: &mut [u8],
    store: &mut [u8],
    picture: &mut [u16],
    wide: &mut [u32],
) -> Desk {
    let last = app_text::loading::first(out, d.written);
    let n = app_records::frames::lengths(m);
    match r.kind {
        Kind::Told(kind) => {
            crate::records::after_told(d, app_records::told::told(kind, r, m, last))
        }
        Kind::Wrote(kind) => {
            crate::records::with_written(d, app_records::wrote::wrote(kind, r, m, out))
        }
        Kind::Known(kind) => {
            crate::records::with_session(d, app_records::known::known(kind, d.s, r, m, last))
        }
        Kind::Stored(kind) => collected(kind, d, r, m, store),
        Kind::Given => given(d, r, m, store, picture),
        Kind::Picture => {
            let words = app_records::frames::set_picture(m, picture, wide);
            crate::records::with_picture(d, words, app_records::frames::is_wide(m))
        }
        Kind::Frame => {
            let bytes = app_records::taking::one(m, r);
            crate::records::after_told(d, framed_on(d, bytes, n, picture, wide))
        }
        Kind::FrameBack => crate::records::after_told(d, framed_on(d, last, n, picture, wide)),
        Kind::Fresh => crate::records::fresh(),
    }
}

// A proved loop ends, and nothing says that an input does: the turns are counted up to a number that no run comes to.
fn run(
    input: &mut Input,
    message: &mut [u8],
    out: &mut [u8],
    store: &mut [u8],
    picture: &mut [u16],
    wide: &mut [u32],
) {
    let mut d = crate::records::fresh();
    for _ in 0..u64::MAX {
        match app_records::taking::take(input, message) {
            Ok(Some(r)) => d = make(d, r, message, out, store, picture, wide),
            Ok(None) => return,
            Err(_) => d = crate::records::bad(d),
        }
        if !d.go {
            return;
        }
    }
}

// The large ones come as arrays: their lengths are known without counting to a million.
fn run_in(
    input: &mut Input,
    message: &mut [u8; 1114112],
    out: &mut [u8; 1048576],
    store: &mut [u8; 1048576],
    picture: &mut [u16; 1048576],
    wide: &mut [u32; 131072],
) {
    run(input, message, out, store, picture, wide);
}

fn main(rt: HostRuntime) {
    let mut lent = [0u8; 65536];
    let mut message = [0u8; 1114112];
    let mut out = [0u8; 1048576];
    let mut store = [0u8; 1048576];
    let mut picture = [0u16; 1048576];
    let mut wide = [0u32; 131072];
    run_in(
        &mut Input::new(rt.stdin(), &mut lent),
        &mut message,
        &mut out,
        &mut store,
        &mut picture,
        &mut wide,
    );
}
