// Document 01's "Colour", both ways: a pixel's three bytes to Y, Cb and Cr, and these back to three bytes and to the picture's word: 5-6-5,
// or, on a glass of 32 bits (document 02, "A door with 32-bit glass"), the three bytes side by side.
// All in 32 bits (document 02, "No 64-bit products on the small door panel"): on the way back a sample is split at 65,536, and with it its products.
#![tactic(auto)]

ghost use Rattle.std.specs.Prelude.{◌≡◌, refl, ℕ, eqb, ◌≤◌, pos, ◌+ℤ◌, ◌*ℤ◌};
ghost use Rattle.std.specs.Mem.{type_size};
ghost use Rattle.std.proofs.Common.{rules};
ghost use Rattle.whole.specs.laws.Near.{Near, Upto};
ghost use Rattle.colour.specs.Colour.{clamp_byte, cut21, luma_of, cb_of, cr_of, rgb_of, pack_of, word_of};
ghost use Rattle.colour.specs.laws.Steps.{weighed, mix, joined, Small};

// A pixel's three bytes.
#[derive(Clone, Copy)]
pub struct Rgb {
    pub r: u8,
    pub g: u8,
    pub b: u8,
}

// A sample in two parts: 65,536 times the high one, and the low one more.
#[derive(Clone, Copy)]
struct Parts {
    high: i32,
    low: i32,
}

fn byte(x: u8) -> i32
    ensures { result ≡ pos x }
{
    x as i32
}

// The sum of a pixel's bytes, each with its weight, over 2,048.
fn weigh(r: u8, g: u8, b: u8, j: i32, k: i32, l: i32) -> i32
    requires { Near 65535 j × Near 65535 k × Near 65535 l }
    ensures { result ≡ weighed j k l r g b }
{
    (j * byte(r) + k * byte(g) + l * byte(b)) >> 11
}

// Y of a pixel.
pub fn luma(r: u8, g: u8, b: u8) -> i32
    ensures { result ≡ luma_of r g b }
{
    weigh(r, g, b, 19595, 38470, 7471) - 4096
}

// Cb of a pixel.
pub fn cb(r: u8, g: u8, b: u8) -> i32
    ensures { result ≡ cb_of r g b }
{
    weigh(r, g, b, -11071, -21736, 32807)
}

// Cr of a pixel.
pub fn cr(r: u8, g: u8, b: u8) -> i32
    ensures { result ≡ cr_of r g b }
{
    weigh(r, g, b, 32756, -27429, -5327)
}

fn clamp(x: i32) -> u8
    ensures { result ≡ clamp_byte x }
{
    if x < 0 {
        return 0;
    }
    if x > 255 {
        return 255;
    }
    x as u8
}

fn split(v: i32) -> Parts
    requires { Near 268435456 v }
    ensures { (joined result ≡ v) × Small result }
{
    let high = v >> 16;
    Parts {
        high: high,
        low: v - high * 65536,
    }
}

// One byte of a pixel: (65,536 base + j r - k b) over 2^21, clamped; half of 2^21 is 16 of the base. 65,536 goes into all but the products of the low parts.
fn channel(base: i32, j: i32, r: Parts, k: i32, b: Parts) -> u8
    requires { Near 805310480 base × Upto 32767 j × Small r × Upto 32767 k × Small b }
    ensures { result ≡ clamp_byte (cut21 (base *ℤ pos 65536 +ℤ mix j (joined r) k (joined b))) }
{
    let high = j * r.high - k * b.high;
    let low = (j * r.low - k * b.low) >> 16;
    clamp((base + (high + low)) >> 5)
}

// The three bytes of a pixel's samples, rounded: 2^20 before the floor is 16 x 65,536, so that 4,096 becomes 4,112. A factor of 01's is a whole number of times 65,536, which goes to the base, and one of 15 bits:
// 91,916 = 65,536 + 26,380, 46,819 = 65,536 - 18,717, 115,992 = 2 x 65,536 - 15,080.
pub fn rgb_of(y: i32, cb: i32, cr: i32) -> Rgb
    requires { Near 268435456 y × Near 268435456 cb × Near 268435456 cr }
    ensures { result ≡ rgb_of y cb cr }
{
    let b = split(cb);
    let r = split(cr);
    let s = y + 4112;
    Rgb {
        r: channel(s + cr, 26380, r, 0, b),
        g: channel(s - cr, 18717, r, 22527, b),
        b: channel(s + 2 * cb, 0, r, 15080, b),
    }
}

// A word of a picture: which glass has such words, 0 the one of 16 bits and 1 the one of 32, what number it is, and how it is made.
pub trait GlassWord: Copy + Eq {
    const GLASS: u8;

    ghost GLASS: { ℕ };

    ghost number: { Self → ℕ };

    // The word of a pixel's three bytes.
    fn pack(p: Rgb) -> Self
        ensures { number result ≡ pack_of GLASS p.r p.g p.b };

    // Words are equal exactly if their numbers are.
    ghost same: { (a b : Self) → Self.eq a b ≡ eqb (number a) (number b) };

    // A word has at most four bytes.
    ghost small: { type_size Self.row ≤ 4 };
}

impl GlassWord for u16 {
    const GLASS: u8 = 0;

    ghost GLASS = { 0 };

    ghost number = { λ n. n };

    fn pack(p: Rgb) -> u16 {
        (p.r as u16) / 8 * 2048 + (p.g as u16) / 4 * 32 + (p.b as u16) / 8
    }

    ghost same = { λ a b. refl };

    ghost small = { Prim.search rules };
}

impl GlassWord for u32 {
    const GLASS: u8 = 1;

    ghost GLASS = { 1 };

    ghost number = { λ n. n };

    fn pack(p: Rgb) -> u32 {
        (p.r as u32) * 65536 + (p.g as u32) * 256 + (p.b as u32)
    }

    ghost same = { λ a b. refl };

    ghost small = { Prim.search rules };
}

// The picture's word of a pixel's samples, on a glass of either size.
pub fn word<W: GlassWord>(y: i32, cb: i32, cr: i32) -> W
    requires { Near 268435456 y × Near 268435456 cb × Near 268435456 cr }
    ensures { W.number result ≡ word_of W.GLASS y cb cr }
{
    W::pack(rgb_of(y, cb, cr))
}
