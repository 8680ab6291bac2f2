// Settings as a file (document 02, request Five):  settings [FILE]  or  settings -q Q0 .. Q9 [-Q Q0 .. Q9] [-m 1|3] [-o OUT]
// The first prints the settings of FILE, or of standard input, in words. The second writes settings, to OUT or to standard output: -q are luma's quantisers and, without
// -Q, chroma's too, in the order LL3, LH3, HL3, HH3, LH2, HL2, HH2, LH1, HL1, HH1; -m 3 is RLGR3 (so without -m), -m 1 RLGR1. The last line says what it came to: on
// standard output where the result goes to OUT, else on standard error.
#![tactic(auto)]

use app_text::arguments::{Kind, Usage};
use app_text::lines::ERR;
use quants::Quants;
use settings::Settings;
use std::rt::Env;
use wire::Numbered;

// What the arguments ask, each option at most once: the file's argument, whose settings are printed; or settings that are written, and the result's argument.
#[derive(Clone, Copy)]
enum Asked {
    Print(Option<usize>),
    Write(Settings, Option<usize>),
}

fn arguments(rt: &impl Env) -> Result<Asked, Usage> {
    let known = [(b'm', 1), (b'q', 10), (b'Q', 10), (b'o', 1)];
    app_text::arguments::only_known(rt, &known)?;
    let file = app_text::arguments::find_once(rt, &known, Kind::File)?;
    let m = app_text::arguments::find_once(rt, &known, Kind::Option(b'm'))?;
    let q = app_text::arguments::find_once(rt, &known, Kind::Option(b'q'))?;
    let c = app_text::arguments::find_once(rt, &known, Kind::Option(b'Q'))?;
    let out = app_text::arguments::find_once(rt, &known, Kind::Option(b'o'))?;
    let mode = app_settings::mode_of(rt, m)?;
    let luma = app_settings::quantisers(rt, q, app_settings::usual())?;
    let chroma = app_settings::quantisers(rt, c, luma)?;
    let quants = Quants { luma, chroma };
    match (file, m, q, c, out) {
        (_, None, None, None, None) => Ok(Asked::Print(file)),
        (None, _, Some(_), _, _) => Ok(Asked::Write(Settings { quants, mode }, out)),
        _ => Err(Usage),
    }
}

// A file in words, on standard output; the last line is on standard error.
fn print(rt: &HostRuntime, file: Option<usize>) {
    let mut data = [0u8; 4096];
    if let Ok(s) = app_settings::load(rt, ERR, b"settings", file, &mut data).reading {
        app_settings::say(s);
        app_text::lines::say_done(ERR, b"settings");
    }
}

// The settings go out, and the last line is said.
fn write(rt: &HostRuntime, s: Settings, out: Option<usize>) {
    let to = app_words::saving::lines_to(out);
    let mut bytes = [0u8; 15];
    match settings::write::write_settings(s, &mut bytes) {
        Ok(n) => {
            let bytes = app_text::loading::first(&bytes, n);
            if app_words::saving::save(rt, to, b"settings", out, bytes) {
                app_text::lines::say_done(to, b"settings");
            }
        }
        Err(refusal) => app_text::lines::say_refusal(to, b"settings", refusal.number()),
    }
}

fn main(rt: HostRuntime) {
    match arguments(&rt) {
        Ok(Asked::Print(file)) => print(&rt, file),
        Ok(Asked::Write(s, out)) => write(&rt, s, out),
        Err(Usage) => app_text::lines::say(
            ERR,
            b"usage: settings [FILE] | settings -q Q0 .. Q9 [-Q Q0 .. Q9] [-m 1|3] [-o OUT]\n",
        ),
    }
}
