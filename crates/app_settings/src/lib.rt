// Settings for the programs (document 02, request Five): quantisers and mode from arguments, a settings file read (specs/Text), settings in words. No customer links it.
#![tactic(auto)]

ghost use Rattle.std.specs.Prelude.{◌≡◌};
ghost use Rattle.app_settings.specs.Text.{settings_in, settings_read};

use app_text::arguments::Usage;
use app_text::lines::OUT;
use bands::Quant;
use settings::read::read_settings;
use settings::{Settings, StoreRefusal};
use std::rt::Env;
use wire::Numbered;

// The number that an argument is, none where it is no number below 2^32.
pub fn number_of(rt: &impl Env, i: usize) -> Option<u32> {
    let mut text = [0u8; 16];
    let n = app_text::arguments::argument(rt, i, &mut text);
    let f = app_pictures::ppm::number(&text, 0);
    if n == 0 || f.at != n {
        return None;
    }
    u32::try_from(f.value).ok()
}

// RLGR3, whose number in the stream is 4, without -m; else 1 is RLGR1 and 3 is RLGR3.
pub fn mode_of(rt: &impl Env, i: Option<usize>) -> Result<u8, Usage> {
    let i = match i {
        Some(i) => i,
        None => return Ok(4),
    };
    match number_of(rt, i) {
        Some(1) => Ok(1),
        Some(3) => Ok(4),
        _ => Err(Usage),
    }
}

// The ten quantisers from argument i on; where there is no such argument, those that are given. One that is too large for a byte is 255, which the writers
// refuse.
pub fn quantisers(rt: &impl Env, i: Option<usize>, other: Quant) -> Result<Quant, Usage> {
    let i = match i {
        Some(i) => i,
        None => return Ok(other),
    };
    let mut v = [0u8; 10];
    for (k, q) in v.iter_mut().enumerate() {
        let n = number_of(rt, i.wrapping_add(k)).ok_or(Usage)?;
        *q = n.min(255) as u8;
    }
    Ok(Quant { v })
}

// The quantisers where none are named.
pub fn usual() -> Quant {
    Quant {
        v: [6, 6, 6, 6, 7, 7, 8, 8, 8, 9],
    }
}

// What a settings file came to: how many bytes it has, none where it was not read whole, and what a reader says of them.
#[derive(Clone, Copy)]
pub struct Kept {
    pub size: Option<usize>,
    pub reading: Result<Settings, StoreRefusal>,
}

// What a reader of version 2 says of a file's bytes; of a file that was not read whole nothing is taken, as of an empty one.
pub fn settings_in(whole: bool, bytes: &[u8]) -> Result<Settings, StoreRefusal>
    ensures { result ≡ settings_in whole bytes.now }
{
    if whole {
        return read_settings(2, bytes);
    }
    read_settings(2, &bytes[..0])
}

// The settings of the file that argument i names, standard input where there is no such argument. Where there are none, one line says why.
pub fn load(rt: &HostRuntime, to: i32, name: &[u8], i: Option<usize>, data: &mut [u8]) -> Kept
    ensures { result.reading ≡ settings_read result.size «data».new }
{
    let too_long = b"the settings file is longer than 4096 bytes";
    let size = app_text::loading::load(rt, to, name, i, data, too_long);
    let reading = match size {
        Some(n) => settings_in(true, app_text::loading::first(data, n)),
        None => settings_in(false, data),
    };
    if let (Some(_), Err(why)) = (size, reading) {
        app_text::lines::say_refusal(to, name, why.number());
    }
    Kept { size, reading }
}

// ---- settings in words

// A line of a word and ten numbers.
fn say_set(text: &[u8], q: Quant) {
    app_text::lines::say(OUT, text);
    for x in q.v {
        app_text::lines::say_number(OUT, b" ", x as u64);
    }
    app_text::lines::say(OUT, b"\n");
}

// Settings in words.
pub fn say(s: Settings) {
    say_set(b"luma", s.quants.luma);
    say_set(b"chroma", s.quants.chroma);
    if s.mode == 1 {
        app_text::lines::say(OUT, b"mode RLGR1\n");
        return;
    }
    app_text::lines::say(OUT, b"mode RLGR3\n");
}
