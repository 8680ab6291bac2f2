// Quantiser sets as bytes (document 01, "Bands and the wavelet") and the two sets of a picture, luma's and chroma's (document 02, request Five).
#![tactic(auto)]

ghost use Rattle.std.specs.Prelude.{◌≡◌, ◌+◌, ◌*◌, ◌≤◌, ◌<◌, length, get_or};
ghost use Rattle.wire.specs.Le.{patch};
ghost use Rattle.bands.specs.Bands.{QuantGood};
ghost use Rattle.quants.specs.Quants.{quant_bytes, same, quant_for, sets_of, chroma_index};

use bands::Quant;

// The sets of a picture: luma's is for Y, chroma's for Cb and Cr.
#[derive(Clone, Copy)]
pub struct Quants {
    pub luma: Quant,
    pub chroma: Quant,
}

// Are the two sets the same, value by value?
pub fn is_same(q: Quants) -> bool
    ensures { result ≡ same q }
{
    q.luma == q.chroma
}

// The set of component c: 0 is Y, 1 Cb, 2 Cr.
pub fn quant_for(q: Quants, c: usize) -> Quant
    ensures { result ≡ quant_for q c }
{
    if c == 0 {
        return q.luma;
    }
    q.chroma
}

// Two values of a set in a byte, low half first.
fn pack(q: Quant, k: usize) -> u8
    requires { QuantGood q.v × (k + 1 < 10) }
    ensures { result ≡ get_or q.v k 0 + 16 * get_or q.v (k + 1) 0 }
{
    q.v[k] + 16 * q.v[k + 1]
}

// The five bytes of a set, at a place.
pub fn put_set(out: &mut [u8], at: usize, q: Quant)
    requires { (at + 5 ≤ length out.old) × QuantGood q.v }
    ensures { out.new ≡ patch out.old at (quant_bytes q.v) }
{
    wire::put_two8(out, at, pack(q, 0), pack(q, 2));
    wire::put_two8(out, at + 2, pack(q, 4), pack(q, 6));
    wire::put8_at(out, at + 4, pack(q, 8));
}

// Which of the sets that a frame carries is chroma's: where both are the same there is one.
pub fn chroma_index(q: Quants) -> u8
    ensures { (result ≡ chroma_index q) × (result ≤ 1) }
{
    if is_same(q) {
        return 0;
    }
    1
}

// The sets that a frame carries, at a place: one, or luma's and then chroma's.
pub fn put_sets(out: &mut [u8], at: usize, q: Quants)
    requires { (at + 5 + 5 * chroma_index q ≤ length out.old) × QuantGood q.luma.v × QuantGood q.chroma.v }
    ensures { out.new ≡ patch out.old at (quant_bytes (sets_of q)) }
{
    let luma = q.luma;
    let chroma = q.chroma;
    put_set(out, at, luma);
    if is_same(q) {
        return;
    }
    put_set(out, at + 5, chroma);
}
