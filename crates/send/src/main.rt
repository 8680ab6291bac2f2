// Sends a picture as a RemoteFX stream:  send [FILE | OLD NEW] [-m 1|3] [-q Q0 .. Q9] [-i INDEX] [-s SETTINGS] [-o OUT]
// The picture, a binary PPM (P6, 255 the largest value, comments in its head allowed), comes from FILE or from standard input. The stream goes to OUT or to standard
// output: the four header blocks (47 bytes) and one frame. -m 3 is RLGR3 (so without -m), -m 1 RLGR1; -q takes ten quantisers from 6 to 15 in the order LL3, LH3,
// HL3, HH3, LH2, HL2, HH2, LH1, HL1, HH1 (6 6 6 6 7 7 8 8 8 9 without); INDEX is the frame's (0 without). -s takes mode and quantisers, luma's and chroma's, from a
// settings file instead of -m and -q. At most 1,048,576 pixels and 4,194,304 bytes of stream. With OLD and NEW, two pictures of one size, a full frame of OLD and a
// short frame of NEW (02, request Eleven), of the tiles that differ; at most 524,288 pixels each. The last line says
// what it came to (on standard output with -o, else on standard error); where anything is wrong it says what, and nothing is written. What is written is an equation
// over the bytes that were read: app_send.
#![tactic(auto)]

mod args;
mod short;

use crate::args::Options;
use app_send::Unmade;
use app_text::arguments::Usage;
use app_text::lines::ERR;
use settings::Settings;
use wire::Numbered;

// ---- the settings

// The settings of the arguments, or those of the file that -s names; none where there are none in it, which is said.
fn chosen(rt: &HostRuntime, to: i32, o: Options, data: &mut [u8]) -> Option<Settings> {
    match o.kept {
        Some(_) => app_settings::load(rt, to, b"send", o.kept, data)
            .reading
            .ok(),
        None => Some(o.settings),
    }
}

// ---- one picture

// Reads a picture and makes its stream; none where it was not read whole, which is said.
fn load_and_make(
    rt: &HostRuntime,
    to: i32,
    o: Options,
    s: Settings,
    data: &mut [u8],
    out: &mut [u8],
) -> Option<Result<usize, Unmade>> {
    let long = b"the picture is too large: at most 1048576 pixels are taken";
    let n = app_text::loading::load(rt, to, b"send", o.file, data, long)?;
    Some(app_send::picture(s, o.index, app_text::loading::first(data, n), out))
}

// Says why nothing goes out.
pub fn say_unmade(to: i32, why: Unmade) {
    match why {
        Unmade::Faulty(fault) => app_send::faults::say(to, b"send", fault),
        Unmade::Refused(refusal) => {
            let number = refusal.number();
            if number == 13 {
                app_text::lines::say(to, b"send: the stream would be longer than 4194304 bytes\n");
            }
            app_text::lines::say_refusal(to, b"send", number);
        }
    }
}

// "send: done, 12345 bytes"
fn one(rt: &HostRuntime, to: i32, o: Options, s: Settings, data: &mut [u8], out: &mut [u8]) {
    match load_and_make(rt, to, o, s, data, out) {
        Some(Ok(size)) => {
            let bytes = app_text::loading::first(out, size);
            if app_words::saving::save(rt, to, b"send", o.out, bytes) {
                app_text::lines::say_number(to, b"send: done, ", size as u64);
                app_text::lines::say(to, b" bytes\n");
            }
        }
        Some(Err(why)) => say_unmade(to, why),
        None => (),
    }
}

// ---- the program

fn run(rt: &HostRuntime, to: i32, o: Options, s: Settings, data: &mut [u8], out: &mut [u8]) {
    match o.old {
        Some(_) => crate::short::two(rt, to, o, s, data, out),
        None => one(rt, to, o, s, data, out),
    }
}

// The two large ones come as arrays: their lengths are known without counting to a million. The pictures' has 1,024 bytes for the head of each of two.
fn run_in(
    rt: &HostRuntime,
    to: i32,
    o: Options,
    s: Settings,
    data: &mut [u8; 3147776],
    out: &mut [u8; 4194304],
) {
    run(rt, to, o, s, data, out);
}

fn start(rt: &HostRuntime, to: i32, o: Options, s: Settings) {
    let mut data = [0u8; 3147776];
    let mut out = [0u8; 4194304];
    run_in(rt, to, o, s, &mut data, &mut out);
}

fn main(rt: HostRuntime) {
    let mut kept = [0u8; 4096];
    match crate::args::arguments(&rt) {
        Ok(o) => {
            let to = app_words::saving::lines_to(o.out);
            if let Some(s) = chosen(&rt, to, o, &mut kept) {
                start(&rt, to, o, s);
            }
        }
        Err(Usage) => app_text::lines::say(
            ERR,
            b"usage: send [FILE | OLD NEW] [-m 1|3] [-q Q0 Q1 Q2 Q3 Q4 Q5 Q6 Q7 Q8 Q9] [-i INDEX] [-s SETTINGS] [-o OUT]\n",
        ),
    }
}
