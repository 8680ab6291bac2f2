// Document 02's request Nine: a plain decoder for an auditor, from a component's code to a tile's pixels, as document 01 says it, to be held beside the
// paper line by line: sums and scaling a place at a time, the wavelet by its indices, colour a pixel at a time in 64 bits. It calls no function of the
// product; what both mean is said once, by the definitions that the contracts name, and specs/Same says that both give the same.
#![tactic(auto)]

ghost use Rattle.std.specs.Prelude.{◌≡◌, ℕ, ◌+◌, ◌*◌, ◌-◌, min, ◌<◌, ◌≤◌, ◌^◌, pos, ◌+ℤ◌, ◌*ℤ◌, length, drop, map};
ghost use Rattle.whole.specs.laws.Near.{Near};
ghost use Rattle.whole.specs.Tab.{at};
ghost use Rattle.whole.specs.laws.Tab.{AllNear};
ghost use Rattle.wire.specs.Refusal.{number_of};
ghost use Rattle.bands.specs.Bands.{QuantGood, band_of, quant_at, in_range};
ghost use Rattle.wave_back.specs.Line.{even_z, odd_z, even_at};
ghost use Rattle.wave_back.specs.Tile.{tile_back};
ghost use Rattle.wave_back.specs.laws.Level.{level_from};
ghost use Rattle.colour.specs.Colour.{clamp_byte, red_of, green_of, blue_of, pack_of, word_of};
ghost use Rattle.tile_back.specs.Word.{Plane, word_at};
ghost use Rattle.plain.specs.Plain.{Component, Sampled, Words};
ghost use Rattle.plain.specs.laws.Fit.{Sums, Scales, Fitted};
ghost use Rattle.plain.specs.laws.Lines.{Line, avg_of, line_of, Level, rows_at, Passed};

use bands::Quant;
use code::read::Reading;
use colour::GlassWord;
use wire::Refusal;

// ---- bands: sums and scaling

// Where in the set the quantiser of place k stands: the list has HL1, LH1, HH1, .., LL3, the set LL3, LH3, HL3, .., HH1.
#[tactic(auto, using(whole::specs::laws::Row::rows), unfolding(bands::specs::Bands::bands, bands::specs::Bands::first_band, bands::specs::Bands::band_at))]
fn band(k: usize) -> usize
    requires { k < 4096 }
    ensures { result ≡ band_of k }
{
    match k {
        0..=1023 => 8,
        1024..=2047 => 7,
        2048..=3071 => 9,
        3072..=3327 => 5,
        3328..=3583 => 4,
        3584..=3839 => 6,
        3840..=3903 => 2,
        3904..=3967 => 1,
        3968..=4031 => 3,
        _ => 0,
    }
}

// 9 "outside -32,767 to 32,767": whether it is not so.
fn in_range(v: i32) -> bool
    ensures { result ≡ in_range v }
{
    -32767 <= v && v <= 32767
}

fn plus(a: i32, b: i32) -> i32
    requires { Near 2097152 a × Near 32767 b }
    ensures { result ≡ a +ℤ b }
{
    a + b
}

// "Scaling is times 2^(q-1)"
fn scaled(v: i32, q: u8) -> i32
    requires { Near 32767 v × (6 ≤ q) × (q ≤ 15) }
    ensures { result ≡ v *ℤ pos (2 ^ (q - 1)) }
{
    v * (1u32 << (q - 1)) as i32
}

// The quantiser of place k.
fn quant(q: Quant, k: usize) -> u8
    requires { QuantGood q.v × (k < 4096) }
    ensures { (result ≡ quant_at q.v k) × (6 ≤ result) × (result ≤ 15) }
{
    q.v[band(k)]
}

// "LL3 holds its first value and then differences; sum first": the last 64 places, unless a sum is out of range.
fn sum(work: &mut [i32]) -> Result<(), Refusal>
    requires { (length work.old ≡ 4096) × AllNear 32767 work.old }
    ensures { Sums work.old work.new (number_of result) }
{
    let mut s = 0;
    for i in 0..64 {
        s = plus(s, work[4032 + i]);
        if !in_range(s) {
            return Err(Refusal::Range);
        }
        work[4032 + i] = s;
    }
    Ok(())
}

// "then scale": every place by its own band's quantiser, unless a value is out of range.
fn scale(work: &mut [i32], q: Quant) -> Result<(), Refusal>
    requires { (length work.old ≡ 4096) × AllNear 32767 work.old × QuantGood q.v }
    ensures { Scales q.v work.old work.new (number_of result) }
{
    for k in 0..4096 {
        let v = scaled(work[k], quant(q, k));
        if !in_range(v) {
            return Err(Refusal::Range);
        }
        work[k] = v;
    }
    Ok(())
}

// Both: where one is out of range the list stays as it then is.
fn fit(work: &mut [i32], q: Quant) -> Result<(), Refusal>
    requires { (length work.old ≡ 4096) × AllNear 32767 work.old × QuantGood q.v }
    ensures { Fitted q.v work.old work.new (number_of result) }
{
    sum(work)?;
    scale(work, q)
}

// A component, "code, then LL3 sums and scaling (9)": why it is refused, or its coefficients.
pub fn component(mode: u8, q: Quant, code: &[u8], work: &mut [i32]) -> Result<(), Refusal>
    requires { (length work.old ≡ 4096) × QuantGood q.v }
    ensures { Component mode q.v code.now work.old work.new (number_of result) }
{
    match plain_code::read_component(mode, code, work) {
        Reading::Done(_) => {}
        Reading::Tail(_) => return Err(Refusal::Tail),
        Reading::Refused(refusal) => return Err(refusal),
    }
    if let Err(refusal) = fit(work, q) {
        plain_code::clear(work);
        return Err(refusal);
    }
    Ok(())
}

// ---- the wavelet, by its indices

// "x[2n] = L[n] - floor((H[n-1] + H[n] + 1)/2)"
fn even(l: i32, g: i32, h: i32) -> i32
    requires { Near 268435456 l × Near 268435456 g × Near 268435456 h }
    ensures { result ≡ even_z l g h }
{
    l - ((g + h + 1) >> 1)
}

// "x[2n+1] = 2H[n] + floor((x[2n] + x[2n+2])/2)", where the sample has, along a row, the sum over 2 toward zero, and down a column the sum of both
// halves, each toward zero.
fn odd(along: bool, h: i32, x: i32, y: i32) -> i32
    requires { Near 268435456 h × Near 536870913 x × Near 536870913 y }
    ensures { result ≡ odd_z (avg_of along) h x y }
{
    if along {
        return 2 * h + (x + y) / 2;
    }
    2 * h + (x / 2 + y / 2)
}

// "H[-1] is H[0]"
fn prev(c: usize) -> usize
    ensures { result ≡ c - 1 }
{
    if c == 0 { 0 } else { c - 1 }
}

// "x past the end is the last even x"
fn next(c: usize, n: usize) -> usize
    requires { c < n }
    ensures { result ≡ min (c + 1) (n - 1) }
{
    if c + 1 < n { c + 1 } else { c }
}

// x[2c] of the line whose L stands in src from place l on and whose H from place h on, every d numbers.
fn even_at(src: &[i32], l: usize, h: usize, d: usize, n: usize, c: usize) -> i32
    requires { Line src.now l h d n × (c < n) }
    ensures { result ≡ even_at (λ (i : ℕ). at src.now (l + d * i)) (λ (i : ℕ). at src.now (h + d * i)) c }
{
    even(src[l + d * c], src[h + d * prev(c)], src[h + d * c])
}

// x[k] of that line, along a row or down a column.
fn line(src: &[i32], l: usize, h: usize, d: usize, n: usize, k: usize, along: bool) -> i32
    requires { Line src.now l h d n × (k < 2 * n) }
    ensures { result ≡ line_of along n (at src.now) l h d k }
{
    let c = k / 2;
    let x = even_at(src, l, h, d, n, c);
    if k % 2 == 0 {
        return x;
    }
    let y = even_at(src, l, h, d, n, next(c, n));
    odd(along, src[h + d * c], x, y)
}

// "Rows first (LL with HL, LH with HH)": place x of row r, of 2n rows. The bands HL, LH, HH, LL stand one after the other from place `from` on.
fn row(src: &[i32], from: usize, n: usize, r: usize, x: usize) -> i32
    requires { Level src.now from n × (r < 2 * n) × (x < 2 * n) }
    ensures { result ≡ rows_at n (at (drop from src.now)) r x }
{
    let b = n * n;
    let a = from + r * n;
    if r < n {
        return line(src, a + 3 * b, a, 1, n, x, true);
    }
    line(src, a, a + b, 1, n, x, true)
}

fn rows(src: &[i32], from: usize, dst: &mut [i32], n: usize)
    requires { Level src.now from n × (length dst.old ≡ 4096) }
    ensures { Passed n (at (drop from src.now)) dst.new }
{
    let w = 2 * n;
    for k in 0..w * w {
        dst[k] = row(src, from, n, k / w, k % w);
    }
}

// "then columns"
fn columns(src: &[i32], dst: &mut [i32], from: usize, n: usize)
    requires { Level dst.old from n × (length src.now ≡ 4096) × Passed n (at (drop from dst.old)) src.now }
    ensures { dst.new ≡ level_from from n dst.old }
{
    let w = 2 * n;
    for k in 0..w * w {
        dst[from + k] = line(src, k % w, n * w + k % w, w, n, k / w, false);
    }
}

fn level(work: &mut [i32], tmp: &mut [i32], from: usize, n: usize)
    requires { Level work.old from n × (length tmp.old ≡ 4096) }
    ensures { work.new ≡ level_from from n work.old }
{
    rows(work, from, tmp, n);
    columns(tmp, work, from, n);
}

// The three levels of a component's tile.
fn tile(work: &mut [i32], tmp: &mut [i32])
    requires { (length work.old ≡ 4096) × (length tmp.old ≡ 4096) × AllNear 32767 work.old }
    ensures { work.new ≡ tile_back work.old }
{
    level(work, tmp, 3840, 8);
    level(work, tmp, 3072, 16);
    level(work, tmp, 0, 32);
}

// A component: why it is refused, or its 64 x 64 samples.
pub fn samples(
    mode: u8,
    q: Quant,
    code: &[u8],
    work: &mut [i32],
    tmp: &mut [i32],
) -> Result<(), Refusal>
    requires { (length work.old ≡ 4096) × (length tmp.old ≡ 4096) × QuantGood q.v }
    ensures { Sampled mode q.v code.now work.old work.new (number_of result) }
{
    component(mode, q, code, work)?;
    tile(work, tmp);
    Ok(())
}

// ---- colour, "floor of (sum + 2^20) over 2^21 for each channel, clamped"

fn clamp(x: i64) -> u8
    ensures { result ≡ clamp_byte x }
{
    if x < 0 {
        return 0;
    }
    if x > 255 { 255 } else { x as u8 }
}

// "S + 91916Cr", with "S = 65536(Y + 4096)"
fn red(y: i32, cr: i32) -> u8
    requires { Near 268435456 y × Near 268435456 cr }
    ensures { result ≡ red_of y cr }
{
    clamp((65536 * (y as i64 + 4096) + 91916 * (cr as i64) + 1048576) >> 21)
}

// "S - 22527Cb - 46819Cr"
fn green(y: i32, cb: i32, cr: i32) -> u8
    requires { Near 268435456 y × Near 268435456 cb × Near 268435456 cr }
    ensures { result ≡ green_of y cb cr }
{
    clamp((65536 * (y as i64 + 4096) - 22527 * (cb as i64) - 46819 * (cr as i64) + 1048576) >> 21)
}

// "S + 115992Cb"
fn blue(y: i32, cb: i32) -> u8
    requires { Near 268435456 y × Near 268435456 cb }
    ensures { result ≡ blue_of y cb }
{
    clamp((65536 * (y as i64 + 4096) + 115992 * (cb as i64) + 1048576) >> 21)
}

// A picture's word of three bytes, made here.
pub trait PlainWord: GlassWord {
    fn of(r: u8, g: u8, b: u8) -> Self
        ensures { Self.number result ≡ pack_of Self.GLASS r g b };
}

// "Word: floor(R/8) x 2048 + floor(G/4) x 32 + floor(B/8)."
impl PlainWord for u16 {
    fn of(r: u8, g: u8, b: u8) -> u16 {
        (r as u16) / 8 * 2048 + (g as u16) / 4 * 32 + (b as u16) / 8
    }
}

// 02, request Thirteen: "words of 32 bits: R x 65536 + G x 256 + B."
impl PlainWord for u32 {
    fn of(r: u8, g: u8, b: u8) -> u32 {
        (r as u32) * 65536 + (g as u32) * 256 + (b as u32)
    }
}

fn word<W: PlainWord>(y: i32, cb: i32, cr: i32) -> W
    requires { Near 268435456 y × Near 268435456 cb × Near 268435456 cr }
    ensures { W.number result ≡ word_of W.GLASS y cb cr }
{
    W::of(red(y, cr), green(y, cb, cr), blue(y, cb))
}

// The word at place i of a tile.
fn pixel<W: PlainWord>(ys: &[i32], cbs: &[i32], crs: &[i32], i: usize) -> W
    requires { (i < 4096) × Plane ys.now × Plane cbs.now × Plane crs.now }
    ensures { W.number result ≡ word_at W.GLASS ys.now cbs.now crs.now i }
{
    word(ys[i], cbs[i], crs[i])
}

// A tile's 4,096 pixels, on a glass of either size.
pub fn pixels<W: PlainWord>(ys: &[i32], cbs: &[i32], crs: &[i32], words: &mut [W])
    requires { (length words.old ≡ 4096) × Plane ys.now × Plane cbs.now × Plane crs.now }
    ensures { Words W.GLASS ys.now cbs.now crs.now (map W.number words.new) }
{
    for i in 0..4096 {
        words[i] = pixel(ys, cbs, crs, i);
    }
}
