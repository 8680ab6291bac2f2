// Runs 001's worked sample (the codes of 4.2.3, all stages of 4.2.4) and compares it twice. Against decoded values, place by place: a line for each stage.
// Those come from an independent implementation that follows 001, and stand also where 001's text is damaged; equal means "as another implementation". Against
// 001's print, row by row: a line `printed ..` for each stage, of the 3,175 rows that stand whole in 001's text; equal means "as 001 says". The 51 rows that
// differ are named by the places that 001 labels them with; docs/DECISIONS.md, 41, says what is wrong with them.
// Files: data/NAME has the decoded values of the stage NAME, data/printed/NAME its printed rows; the words of a tile are two bytes for the 5-6-5 word and one
// that is 0 where the text cannot be read; codes and the tileset are 001's bytes.
#![tactic(auto)]

mod code_stages;
mod stages;
mod wave_stages;

ghost use Rattle.std.specs.Prelude.{◌≡◌, true};
ghost use Rattle.tile_back.specs.Word.{Plane};

use app_text::lines::OUT;
use bands::Quant;

// ---- a component's numbers

// The quantisers of the sample, by their place in its tileset.
fn quantisers(rt: &HostRuntime) -> Quant {
    let mut m = [0u8; 64];
    crate::stages::load(rt, b"4.2.4.1_tileset", &mut m);
    bands::quant_at(&m, 22)
}

// A code's coefficients: 01's number.
fn coefficients(q: Quant, code: &[u8], work: &mut [i32]) -> u8 {
    if work.len() != 4096 {
        return 2;
    }
    if !bands::is_good(q) {
        return 7;
    }
    let n = wire::number_of(tile_back::component_fault(crate::code_stages::MODE, q, code, work));
    if n != 0 {
        return n;
    }
    tile_back::coefficients(crate::code_stages::MODE, q, code, work);
    0
}

// A code's samples: 01's number.
fn samples(q: Quant, code: &[u8], work: &mut [i32], tmp: &mut [i32]) -> u8 {
    if work.len() != 4096 {
        return 2;
    }
    if tmp.len() != 4096 {
        return 2;
    }
    if !bands::is_good(q) {
        return 7;
    }
    let n = wire::number_of(tile_back::component_fault(crate::code_stages::MODE, q, code, work));
    if n != 0 {
        return n;
    }
    tile_back::samples(crate::code_stages::MODE, q, code, work, tmp);
    0
}

// ---- colour

fn is_plane(samples: &[i32]) -> bool
    ensures { result ≡ true → Plane samples.now }
{
    samples.len() == 4096 && code_write::call::in_range(samples)
}

// The words of a tile: whether the samples are such that they are made.
fn words(ys: &[i32], cbs: &[i32], crs: &[i32], out: &mut [u16]) -> bool {
    if is_plane(ys) && is_plane(cbs) && is_plane(crs) {
        fill_words(ys, cbs, crs, out);
        return true;
    }
    false
}

fn word_at(ys: &[i32], cbs: &[i32], crs: &[i32], i: usize) -> u16
    requires { Plane ys.now × Plane cbs.now × Plane crs.now }
{
    if 4096 <= i {
        return 0;
    }
    tile_back::pixel(ys, cbs, crs, i)
}

fn fill_words(ys: &[i32], cbs: &[i32], crs: &[i32], out: &mut [u16])
    requires { Plane ys.now × Plane cbs.now × Plane crs.now }
{
    for (i, word) in out.iter_mut().enumerate() {
        *word = word_at(ys, cbs, crs, i);
    }
}

// How many words of a file are those of a tile, and how many are not.
#[derive(Clone, Copy)]
struct Tally {
    same: usize,
    other: usize,
}

// Whether a word of a file is this one; none where it cannot be read.
fn is_word(word: u16, low: u8, high: u8, mark: u8) -> Option<bool> {
    if mark == 0 {
        return None;
    }
    Some(u16::from_le_bytes([low, high]) == word)
}

fn count_words(words: &[u16; 4096], data: &[u8; 12288]) -> Tally {
    let mut same = 0;
    let mut other = 0;
    for (i, word) in words.iter().enumerate() {
        match is_word(*word, data[3 * i], data[3 * i + 1], data[3 * i + 2]) {
            Some(true) => same += 1,
            Some(false) => other += 1,
            None => {}
        }
    }
    Tally { same, other }
}

// The words against a file's.
fn colours(rt: &HostRuntime, name: &[u8], words: &[u16; 4096]) {
    let mut data = [0u8; 12288];
    crate::stages::load(rt, name, &mut data);
    let t = count_words(words, &data);
    let same = t.same;
    let other = t.other;
    app_text::lines::say(OUT, name);
    app_text::lines::say_number(OUT, b": ", same as u64);
    app_text::lines::say_number(OUT, b" agree, ", other as u64);
    app_text::lines::say(OUT, b" differ\n");
}

// The tile's words against those of 01's integers, and against the text's, which differ: 001 gives reals, and 01's integers decide.
fn picture(rt: &HostRuntime, ys: &[i32], cbs: &[i32], crs: &[i32]) {
    let mut out = [0u16; 4096];
    words(ys, cbs, crs, &mut out);
    colours(rt, b"4.2.4.4_round_words", &out);
    colours(rt, b"4.2.4.4_text_words", &out);
}

// The codes of 4.2.3.
fn codes(rt: &HostRuntime) {
    let mut code = [0u8; 1024];
    crate::code_stages::component(rt, b"4.2.3_y_list", &mut code);
    crate::code_stages::component(rt, b"4.2.3_cb_list", &mut code);
    crate::code_stages::component(rt, b"4.2.3_cr_list", &mut code);
}

// Y of 4.2.4, stage by stage.
fn luma(rt: &HostRuntime, q: Quant, ys: &mut [i32], tmp: &mut [i32]) {
    luma_code(rt, q, ys);
    crate::wave_stages::shown_level(rt, b'1', b'3', b'2', 8, ys, tmp);
    crate::wave_stages::shown_level(rt, b'2', b'2', b'1', 16, ys, tmp);
    crate::wave_stages::shown_level(rt, b'3', b'1', b'0', 32, ys, tmp);
    crate::stages::decoded(rt, b"4.2.4.3.4_y", ys);
}

fn luma_code(rt: &HostRuntime, q: Quant, ys: &mut [i32]) {
    let mut code = [0u8; 1024];
    let n = crate::code_stages::component(rt, b"4.2.4.1_y_list", &mut code);
    let clean = app_text::loading::first(&code, n);
    crate::code_stages::printed(rt, b"printed/4.2.4.2.1_y_list", clean);
    coefficients(q, clean, ys);
}

// The names of a chroma's list, of its printed list and of its printed samples, by the letter b or r, which stands in them: a kind would be told by it.
fn list_name(letter: u8) -> [u8; 15] {
    let mut name = *b"4.2.4.1_cb_list";
    name[9] = letter;
    name
}

fn printed_list_name(section: u8, letter: u8) -> [u8; 25] {
    let mut name = *b"printed/4.2.4.2.2_cb_list";
    name[16] = section;
    name[19] = letter;
    name
}

fn printed_name(section: u8, letter: u8) -> [u8; 20] {
    let mut name = *b"printed/4.2.4.3.5_cb";
    name[16] = section;
    name[19] = letter;
    name
}

// Cb or Cr of 4.2.4, by its letter and the last digits of the sections that print its list and its samples.
fn chroma(
    rt: &HostRuntime,
    letter: u8,
    list: u8,
    stage: u8,
    q: Quant,
    work: &mut [i32],
    tmp: &mut [i32],
) {
    let mut code = [0u8; 1024];
    let n = crate::code_stages::component(rt, &list_name(letter), &mut code);
    let clean = app_text::loading::first(&code, n);
    crate::code_stages::printed(rt, &printed_list_name(list, letter), clean);
    samples(q, clean, work, tmp);
    crate::stages::stage(rt, &printed_name(stage, letter), work);
}

fn main(rt: HostRuntime) {
    let mut ys = [0; 4096];
    let mut cbs = [0; 4096];
    let mut crs = [0; 4096];
    let mut tmp = [0; 4096];
    codes(&rt);
    let q = quantisers(&rt);
    luma(&rt, q, &mut ys, &mut tmp);
    chroma(&rt, b'b', b'2', b'5', q, &mut cbs, &mut tmp);
    chroma(&rt, b'r', b'3', b'6', q, &mut crs, &mut tmp);
    picture(&rt, &ys, &cbs, &crs);
}
