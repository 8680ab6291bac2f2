// Bits of document 01's "The component code": "Bits go high bit first." Reading a bit, a run of ones, a number of n bits and a GR
// number at a place, and writing bits with a pen. Document 02's request Ten is `word`, the same readings of 57 bits at once, and `wide`, a pen that puts four
// bytes out at once.
// Each contract is one equation with a definition of specs/Bits or a record of specs/Pen.
#![tactic(auto)]

ghost use Rattle.std.specs.Prelude.{◌≡◌, ◌+◌, ◌*◌, ◌<◌, ◌≤◌, length, get_or, drop, false};
ghost use Rattle.bits.specs.Bits.{val, bits_of, num_bits, ones_of, num_of, gr_of};
ghost use Rattle.bits.specs.Pen.{Ready, Put, Closed};

pub mod wide;
pub mod word;

// A number that was read, and the place of the bit past it.
pub type Num = (usize, usize);

// The next byte's place, the bits that wait for it as a number, and how many they are.
#[derive(Clone, Copy)]
pub struct Pen {
    pub at: usize,
    pub acc: usize,
    pub n: usize,
}

// The bit at place `at`, as a number.
pub fn digit(s: &[u8], at: usize) -> usize
    requires { at < 8 * length s.now }
    ensures { result ≡ val (get_or (bits_of s.now) at false) }
{
    ((s[at / 8] >> (7 - at % 8)) % 2) as usize
}

// The ones from place `from` on, and the place past the zero after them.
pub fn ones(s: &[u8], from: usize) -> Option<Num>
    requires { length s.now ≤ 65535 }
    ensures { result ≡ ones_of 0 from (drop from (bits_of s.now)) }
{
    let end = s.len() * 8;
    for at in (from..end).step_by(57) {
        if let Some((m, _)) = word::ones_in(word::ahead(s, at), 0) {
            if end - at <= m {
                return None;
            }
            return Some((at - from + m, at + m + 1));
        }
    }
    None
}

// The k bits from place `from` on, as a number.
pub fn number(s: &[u8], from: usize, k: usize) -> Option<Num>
    requires { (length s.now ≤ 65535) × (k ≤ 32) }
    ensures { result ≡ num_of k 0 from (drop from (bits_of s.now)) }
{
    if k == 0 {
        return Some((0, from));
    }
    if s.len() * 8 < k {
        return None;
    }
    if s.len() * 8 - k < from {
        return None;
    }
    let n = word::ahead(s, from) >> (57 - k);
    Some((n as usize, from + k))
}

// A GR number: v ones, a zero, k bits b; it is v * 2^k + b.
pub fn golomb(s: &[u8], from: usize, k: usize) -> Option<Num>
    requires { (length s.now ≤ 65535) × (k ≤ 10) }
    ensures { result ≡ gr_of k from (bits_of s.now) }
{
    let (v, at) = ones(s, from)?;
    let (b, next) = number(s, at, k)?;
    Some(((v << k) + b, next))
}

// Appends the k low bits of v.
pub fn put_bits(out: &mut [u8], p: Pen, k: usize, v: usize) -> Pen
    requires { Ready (length out.old) p k × (k ≤ 32) }
    ensures { Put out.old p out.new result (num_bits k v) }
{
    let n = p.n + k;
    let acc = (p.acc << k) + v % (1usize << k);
    for i in 0..n / 8 {
        out[p.at + i] = ((acc >> (n - 8 * (i + 1))) % 256) as u8;
    }
    Pen {
        at: p.at + n / 8,
        acc: acc % (1usize << (n % 8)),
        n: n % 8,
    }
}

// The last byte, filled up with zero bits. The answer is how many bytes there are.
pub fn finish(out: &mut [u8], p: Pen) -> usize
    requires { Ready (length out.old) p 0 }
    ensures { Closed out.old p out.new result }
{
    if p.n == 0 {
        return p.at;
    }
    out[p.at] = ((p.acc << (8 - p.n)) % 256) as u8;
    p.at + 1
}
