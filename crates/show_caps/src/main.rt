// Prints a client capability container in words (document 02, request Twelve):  caps [FILE]
// The container is the whole of FILE, or of standard input: captureFlags, then a line for each entry with its flags and its entropy code, on standard output. What is
// no container is refused with 01's number; the longest has 49 bytes. The last line, on standard error, says what it came to.
#![tactic(auto)]

use app_text::lines::{ERR, OUT};
use caps::{Caps, Entry};
use wire::Numbered;

// 001, 2.2.1.1: the one flag that has a meaning.
fn say_capture(flags: u32) {
    app_text::lines::say_hex(OUT, b"captureFlags ", flags as u64, 8);
    if flags % 2 == 1 {
        app_text::lines::say(OUT, b", mixing with other codecs");
    }
    app_text::lines::say(OUT, b"\n");
}

// 001, 2.2.1.1.1.1.1: CODEC_MODE is the second bit.
fn say_mode(flags: u8) {
    if flags / 2 % 2 == 1 {
        app_text::lines::say(OUT, b", image mode only");
        return;
    }
    app_text::lines::say(OUT, b", image and video mode");
}

// The entropy code of an entry that was taken: 1 or 4.
fn say_code(mode: u8) {
    if mode == 1 {
        app_text::lines::say(OUT, b", RLGR1\n");
        return;
    }
    app_text::lines::say(OUT, b", RLGR3\n");
}

fn say_entry(i: u64, e: Entry) {
    app_text::lines::say_number(OUT, b"entry ", i);
    app_text::lines::say_hex(OUT, b": flags ", e.flags as u64, 2);
    say_mode(e.flags);
    say_code(e.mode);
}

fn say_caps(c: Caps) {
    say_capture(c.flags);
    app_text::lines::say_number(OUT, b"entries ", c.n as u64);
    app_text::lines::say(OUT, b"\n");
    if c.n > 0 {
        say_entry(1, c.first);
    }
    if c.n > 1 {
        say_entry(2, c.second);
    }
}

fn show(message: &[u8]) {
    match caps::read::read_caps(message) {
        Ok(c) => {
            say_caps(c);
            app_text::lines::say_done(ERR, b"caps");
        }
        Err(refusal) => app_text::lines::say_refusal(ERR, b"caps", refusal.number()),
    }
}

fn main(rt: HostRuntime) {
    let mut space = [0u8; 64];
    let file = match app_text::arguments::count(&rt) {
        0 | 1 => None,
        2 => Some(1),
        _ => {
            app_text::lines::say(ERR, b"usage: caps [FILE]\n");
            return;
        }
    };
    let long = b"no container has more than 49 bytes";
    if let Some(n) = app_text::loading::load(&rt, ERR, b"caps", file, &mut space, long) {
        show(app_text::loading::first(&space, n));
    }
}
