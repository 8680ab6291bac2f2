// Passes a RemoteFX stream on, made acceptable to the panel:  tidy_stream [--sender strict|freerdp|sample] < IN.rfx > OUT.rfx
// The stream goes through the collector (document 02, request One). Header blocks go on in 01's order, frames as `tidy` leaves them, each as soon as it is whole; a
// line on standard error says what was changed. A block or frame of more than 3,145,728 bytes goes on as it came, up to its end. From the first head that the
// collector refuses for another reason on, every byte goes on as it came, that head included, and so do the bytes of a block or frame that is not whole at the end.
#![tactic(auto)]

mod passing;

use crate::passing::Desk;
use app_text::arguments::Usage;
use app_text::lines::ERR;
use std::io::Read;
use std::rt::Env;

// Reads the next piece: how many bytes came, 0 at the end of the input.
fn read_piece(rt: &HostRuntime, piece: &mut [u8]) -> usize {
    rt.stdin().read(piece).unwrap_or(0)
}

// What was done, in one line.
fn say_all(d: Desk) {
    if !d.good {
        app_text::lines::say_why(ERR, b"tidy", b"the output could not be written");
        return;
    }
    app_text::lines::say_number(ERR, b"tidy: done, ", d.frames);
    app_text::lines::say_number(ERR, b" frames, of which changed: ", d.changed);
    app_text::lines::say(ERR, b"\n");
}

// The next piece of the input, passed on.
fn turn(
    rt: &HostRuntime,
    d: Desk,
    piece: &mut [u8],
    store: &mut [u8],
    held: &mut [u8],
    list: &mut [i32],
    out: &mut [u8],
) -> Desk {
    let n = read_piece(rt, piece);
    crate::passing::give(
        d,
        app_text::loading::first(piece, n),
        store,
        held,
        list,
        out,
    )
}

// The whole input. A proved loop ends, and nothing says that an input does: the turns are counted up to a number that no run comes to.
fn run(
    rt: &HostRuntime,
    sender: u8,
    piece: &mut [u8],
    store: &mut [u8],
    held: &mut [u8],
    list: &mut [i32],
    out: &mut [u8],
) {
    let mut d = crate::passing::fresh(sender);
    for _ in 0..u64::MAX {
        if !d.go {
            break;
        }
        d = turn(rt, d, piece, store, held, list, out);
    }
    say_all(crate::passing::finish(d, store, held, out));
}

// The large ones come as arrays: their lengths are known without counting to a million.
fn run_in(
    rt: &HostRuntime,
    sender: u8,
    piece: &mut [u8],
    store: &mut [u8; 3145728],
    held: &mut [u8],
    list: &mut [i32],
    out: &mut [u8; 3145792],
) {
    run(rt, sender, piece, store, held, list, out);
}

// Is argument i this word?
fn is_word(rt: &impl Env, i: usize, word: &[u8]) -> bool {
    let mut text = [0u8; 16];
    let n = app_text::arguments::argument(rt, i, &mut text);
    app_text::loading::first(&text, n) == word
}

// The sender's number by its name.
fn named(rt: &impl Env) -> Result<u8, Usage> {
    if is_word(rt, 2, b"strict") {
        return Ok(0);
    }
    if is_word(rt, 2, b"freerdp") {
        return Ok(1);
    }
    if is_word(rt, 2, b"sample") {
        return Ok(2);
    }
    Err(Usage)
}

// The sender that the arguments name: strict where there are none, which is said.
fn sender_of(rt: &impl Env) -> Result<u8, Usage> {
    let n = app_text::arguments::count(rt);
    if n < 2 {
        app_text::lines::say(
            ERR,
            b"tidy: sender strict; --sender freerdp or --sender sample names another\n",
        );
        return Ok(0);
    }
    if n == 3 && is_word(rt, 1, b"--sender") {
        return named(rt);
    }
    Err(Usage)
}

fn start(rt: &HostRuntime, sender: u8) {
    let mut piece = [0u8; 65536];
    let mut store = [0u8; 3145728];
    let mut held = [0u8; 35];
    let mut list = [0i32; 4096];
    let mut out = [0u8; 3145792];
    run_in(
        rt, sender, &mut piece, &mut store, &mut held, &mut list, &mut out,
    );
}

fn main(rt: HostRuntime) {
    match sender_of(&rt) {
        Ok(sender) => start(&rt, sender),
        Err(Usage) => app_text::lines::say(
            ERR,
            b"usage: tidy_stream [--sender strict|freerdp|sample] < IN.rfx > OUT.rfx\n",
        ),
    }
}
