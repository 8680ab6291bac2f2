// The form of MS-RDPRFX's own sample without its last byte: a code of 4,097 values, of which the last is -1. 01's elements with 4,097 places (01, "The component code"),
// into a list of 4,096; the last value is not stored, but looked at.
ghost use Rattle.std.specs.Prelude.{◌≡◌, true, ◌+◌, ◌*◌, ◌-◌, ◌<◌, ◌≤◌, length, drop, set, replicate, pos};
ghost use Rattle.bits.specs.Bits.{bits_of};
ghost use Rattle.code.specs.Fold.{unfold_z};
ghost use Rattle.code.specs.ReadList.{read_list};
ghost use Rattle.code.specs.Read.{clean};
ghost use Rattle.code.specs.Fill.{Fine};
ghost use Rattle.tidy_code.specs.Sent.{longer_meant, Answers};
ghost use Rattle.tidy_code.specs.Longer.{with_last, PlacedAs, FilledAs};

use code::element::{Element, State};
use wire::Refusal;

// Stores a folded value at place i of 4,097; the answer is the last value.
fn store(list: &mut [i32], last: usize, i: usize, v: usize) -> usize
    requires { (length list.old ≡ 4096) × (i < 4097) × (v ≤ 65534) }
    ensures { with_last list.new result ≡ set (with_last list.old last) i (unfold_z v) }
{
    if i < list.len() {
        list[i] = code::element::unfolded(v);
        return last;
    }
    v
}

// Stores the values of an element at place i of 4,097, which hold zeros from there on. The answer is the next place, the state there and the last value.
fn place(list: &mut [i32], last: usize, i: usize, e: Element) -> (usize, State, usize)
    requires { (length list.old ≡ 4096) × (i < 4097) × Fine 4097 i e }
    ensures { PlacedAs (with_last list.old last) i e list.new result }
{
    match e {
        Element::Zeros(z, t) => (code::read::clipped(4097, i, z), t, last),
        Element::One(z, v, t) => {
            let l = store(list, last, i + z, v);
            (i + z + 1, t, l)
        }
        Element::Two(a, b, t) => {
            let l = store(list, last, i, a);
            if i + 1 < 4097 {
                let k = store(list, l, i + 1, b);
                return (i + 2, t, k);
            }
            (4097, t, l)
        }
    }
}

// Reads the values of a code into 4,097 places that hold zeros: the code's length in bits and the last value.
fn fill(s: &[u8], rlgr3: bool, list: &mut [i32]) -> Result<(usize, usize), Refusal>
    requires { (length s.now ≤ 65535) × (length list.old ≡ 4096) × (list.old ≡ replicate 4096 (pos 0)) }
    ensures { FilledAs (read_list rlgr3 4097 (bits_of s.now)) list.new result }
{
    let mut c = State {
        at: 0,
        kp: 8,
        krp: 8,
    };
    let mut i: usize = 0;
    let mut last: usize = 0;
    // (A `while`: how many places a turn covers is its element's.)
    while i < 4097 {
        let e = crate::element::read_element(s, rlgr3, c, 4097 - i)?;
        let (j, t, l) = place(list, last, i, e);
        i = j;
        c = t;
        last = l;
    }
    Ok((c.at, last))
}

// Whether fewer than 8 bits stand from a place on, and none of them is 1. (The component reader has its own: an edit bends this one.)
fn clean_tail(s: &[u8], at: usize) -> bool
    requires { (length s.now ≤ 65535) × (at ≤ length s.now * 8) }
    ensures { result ≡ clean (drop at (bits_of s.now)) }
{
    let left = s.len() * 8 - at;
    if 8 <= left {
        return false;
    }
    match bits::number(s, at, left) {
        None => false,
        Some((v, _)) => v == 0,
    }
}

// Whether the bytes are such a code, filled up; the list is then its first 4,096 values, else zeros.
pub fn read_longer(s: &[u8], rlgr3: bool, list: &mut [i32]) -> bool
    requires { (length s.now ≤ 65535) × (length list.old ≡ 4096) }
    ensures { Answers (longer_meant (bits_of s.now) (read_list rlgr3 4097 (bits_of s.now))) list.new result }
{
    whole::clear(list);
    match fill(s, rlgr3, list) {
        Err(_) => crate::refuse(list),
        Ok((at, last)) => {
            if !clean_tail(s, at) {
                return crate::refuse(list);
            }
            if last != 1 {
                return crate::refuse(list);
            }
            true
        }
    }
}
