// Document 02, request Ten: "Look at a word at a time and count its leading bits." The 57 bits at a place as one number (eight bytes hold them,
// wherever in a byte they begin), and what is read inside them: a number, a run of ones, a GR number, the zeros that they begin with.
// The contracts are those of the readings at a place of a slice, of the bits `num_bits 57 w`.
ghost use Rattle.std.specs.Prelude.{◌≡◌, ◌+◌, ◌*◌, ◌/◌, ◌<◌, ◌≤◌, min, length, drop};
ghost use Rattle.bits.specs.Bits.{got, bits_of, num_bits, ones_of, num_of, gr_of};
ghost use Rattle.bits.specs.Word.{four_of, front_ones, front_zeros, horner, padded};

use crate::Num;

// A byte as a word.
fn wide(x: u8) -> u64
    ensures { (result ≡ x) × (result < 256) }
{
    x as u64
}

// The four bytes from place j on, high byte first.
fn four(s: &[u8], j: usize) -> u64
    requires { j + 4 ≤ length s.now }
    ensures { (result ≡ four_of s.now j) × (result < 4294967296) }
{
    ((wide(s[j]) * 256 + wide(s[j + 1])) * 256 + wide(s[j + 2])) * 256 + wide(s[j + 3])
}

// The 57 bits from place `at` on, as a number.
pub fn look(s: &[u8], at: usize) -> u64
    requires { at / 8 + 8 ≤ length s.now }
    ensures { got result (at + 57) ≡ num_of 57 0 at (drop at (bits_of s.now)) }
{
    let j = at / 8;
    let w = four(s, j) * 4294967296 + four(s, j + 4);
    (w << (at % 8)) >> 7
}

// Fewer than eight bytes, high byte first.
fn all_of(s: &[u8]) -> u64
    requires { length s.now < 8 }
    ensures { result ≡ horner 0 s.now }
{
    let mut w: u64 = 0;
    for b in s {
        w = w * 256 + wide(*b);
    }
    w
}

// The 57 bits from place `at` on, zeros past the end, as a number: of the eight bytes there, of the last eight, or of all where there are fewer.
pub fn ahead(s: &[u8], at: usize) -> u64
    requires { (length s.now ≤ 65535) × (at < 8 * length s.now) }
    ensures { (num_bits 57 result ≡ padded 57 (drop at (bits_of s.now))) × (result < 144115188075855872) }
{
    if s.len() < 8 {
        return (all_of(s) << (64 - 8 * s.len() + at)) >> 7;
    }
    let j = (at / 8).min(s.len() - 8);
    let w = four(s, j) * 4294967296 + four(s, j + 4);
    (w << (at - 8 * j)) >> 7
}

// The k bits at place `at` of the 57 bits w, where they lie in them, as a number: what stands before them is shifted out above, what stands behind them below
// (in two steps, since k may be 0).
fn bits_in(w: u64, at: usize, k: usize) -> usize
    requires { (at + k ≤ 57) × (k ≤ 32) }
    ensures { got result (at + k) ≡ num_of k 0 at (drop at (num_bits 57 w)) }
{
    ((((w << 7) << at) >> 1) >> (63 - k)) as usize
}

// The k bits at place `at` of the 57 bits w, as a number.
pub fn number_in(w: u64, at: usize, k: usize) -> Option<Num>
    requires { (at ≤ 57) × (k ≤ 32) }
    ensures { result ≡ num_of k 0 at (drop at (num_bits 57 w)) }
{
    if 57 - at < k {
        return None;
    }
    Some((bits_in(w, at, k), at + k))
}

// How many ones stand at place `at` of the 57 bits w: the leading zeros of the complement.
fn ones_at(w: u64, at: usize) -> usize
    requires { at ≤ 57 }
    ensures { result ≡ front_ones (drop at (num_bits 57 w)) }
{
    u64::leading_zeros(18446744073709551615 - ((w << 7) << at)) as usize
}

// The ones from place `at` of the 57 bits w on, and the place past the zero after them.
pub fn ones_in(w: u64, at: usize) -> Option<Num>
    requires { at ≤ 57 }
    ensures { result ≡ ones_of 0 at (drop at (num_bits 57 w)) }
{
    let m = ones_at(w, at);
    if m < 57 - at {
        return Some((m, at + m + 1));
    }
    None
}

// A GR number at place `at` of the 57 bits w. Whether it lies in them is one test, of all its bits.
pub fn golomb_in(w: u64, at: usize, k: usize) -> Option<Num>
    requires { (at ≤ 57) × (k ≤ 10) }
    ensures { result ≡ gr_of k at (num_bits 57 w) }
{
    let v = ones_at(w, at);
    let used = v + 1 + k;
    if 57 - at < used {
        return None;
    }
    let b = bits_in(w, at + v + 1, k);
    Some(((v << k) + b, at + used))
}

// How many zeros the 57 bits w begin with.
pub fn zeros_in(w: u64) -> usize
    requires { w < 144115188075855872 }
    ensures { result ≡ front_zeros (num_bits 57 w) }
{
    (u64::leading_zeros(w) as usize) - 7
}
