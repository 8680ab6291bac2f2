// Document 02's request Nine, the component code of document 01 ("The component code", 001, 3.1.8.1.7) for an auditor: bit by bit, as the paper says it,
// to be held beside it line by line. It calls no function of the product; what both mean is said once, by the definitions that the contracts name.
// Bits past the end are read as zeros, and an element is judged once: did it end within the bytes?
#![tactic(auto)]

ghost use Rattle.std.specs.Prelude.{◌≡◌, ◌+◌, ◌*◌, ◌-◌, ◌/◌, ◌<◌, ◌≤◌, ◌^◌, min, false, length, get_or, drop, replicate, pos, ltb};
ghost use Rattle.bits.specs.Bits.{val, bits_of, num_of, gr_of};
ghost use Rattle.wire.specs.Refusal.{refusal_number};
ghost use Rattle.code.specs.Fold.{unfold_z};
ghost use Rattle.code.specs.Code.{kr_after, kp_one, kp_two, raised, size};
ghost use Rattle.code.specs.ReadList.{state_at, one_elem, two_elem, run_elem, wide as tooWide, no_second_place, elem_of};
ghost use Rattle.code.specs.Read.{clean, reading_number, CodeRead, ComponentRead};
ghost use Rattle.plain_code.specs.Zeros.{ones_in, num_in, gr_in, judged_of};

use code::element::{Element, State};
use code::read::Reading;
use wire::Refusal;

// ---- "Bits go high bit first."

// The bit at a place, 0 past the end.
fn bit(s: &[u8], at: usize) -> usize
    ensures { result ≡ val (get_or (bits_of s.now) at false) }
{
    if s.len() <= at / 8 {
        return 0;
    }
    ((s[at / 8] >> (7 - at % 8)) % 2) as usize
}

// How many ones stand from a place on.
fn ones(s: &[u8], from: usize) -> usize
    requires { (length s.now ≤ 65535) × (from ≤ 1048576) }
    ensures { result ≡ ones_in (drop from (bits_of s.now)) }
{
    let mut v: usize = 0;
    // (A `while`, here and below: how often is what the bits say.)
    while bit(s, from + v) == 1 {
        v += 1;
    }
    v
}

// k bits from a place on, as a number.
fn number(s: &[u8], from: usize, k: usize) -> usize
    requires { (from ≤ 2097152) × (k ≤ 32) }
    ensures { result ≡ num_in k 0 from (bits_of s.now) }
{
    let mut n: usize = 0;
    for i in 0..k {
        n = n * 2 + bit(s, from + i);
    }
    n
}

// "A GR number: v ones, a zero, kr bits b; it is v x 2^kr + b."
fn golomb(s: &[u8], from: usize, k: usize) -> usize
    requires { (length s.now ≤ 65535) × (from ≤ 1048576) × (k ≤ 10) }
    ensures { result ≡ gr_in k from (bits_of s.now) }
{
    let v = ones(s, from);
    (v << k) + number(s, from + v + 1, k)
}

// The place past it.
fn past(from: usize, k: usize, g: usize) -> usize
    requires { (from ≤ 1048576) × (k ≤ 10) × (g < 2 ^ 31) }
    ensures { result ≡ from + g / 2 ^ k + 1 + k }
{
    from + (g >> k) + 1 + k
}

// ---- kp and krp: "stay in 0 to 80 by clamping"

fn state(at: usize, kp: usize, krp: usize) -> State
    ensures { result ≡ state_at at kp krp }
{
    State { at, kp, krp }
}

fn more(kp: usize, d: usize) -> usize
    requires { kp ≤ 80 }
    ensures { result ≡ raised d kp }
{
    kp + d.min(80 - kp)
}

fn less(kp: usize, d: usize) -> usize
    ensures { result ≡ kp - d }
{
    kp.saturating_sub(d)
}

// "Then krp falls by 2 if v = 0, rises by v if v > 1."
fn kr_after(krp: usize, g: usize) -> usize
    requires { krp ≤ 80 }
    ensures { result ≡ kr_after krp g }
{
    let v = g >> (krp / 8);
    if v == 0 {
        return less(krp, 2);
    }
    if v == 1 { krp } else { more(krp, v) }
}

// "Zero: kp + 3, else kp - 3."
fn kp_one(kp: usize, v: usize) -> usize
    requires { kp ≤ 80 }
    ensures { result ≡ kp_one kp v }
{
    if v == 0 { more(kp, 3) } else { less(kp, 3) }
}

// "Both zero: kp + 6; both not: kp - 6."
fn kp_two(kp: usize, a: usize, b: usize) -> usize
    requires { kp ≤ 80 }
    ensures { result ≡ kp_two kp a b }
{
    if a == 0 {
        if b == 0 { more(kp, 6) } else { kp }
    } else {
        if b == 0 { kp } else { less(kp, 6) }
    }
}

// ---- one element, "read in full (1) before it is judged, 9 before 10"

fn judged(s: &[u8], next: usize, range: bool, overrun: bool, e: Element) -> Result<Element, Refusal>
    requires { length s.now ≤ 65535 }
    ensures { result ≡ judged_of (ltb (length s.now * 8) next) range overrun e }
{
    if s.len() * 8 < next {
        return Err(Refusal::Cut);
    }
    if range {
        return Err(Refusal::Range);
    }
    if overrun {
        return Err(Refusal::Overrun);
    }
    Ok(e)
}

// "k = 0, RLGR1: GR g."
fn one(s: &[u8], c: State) -> Result<Element, Refusal>
    requires { (length s.now ≤ 65535) × (c.at ≤ 524280) × (c.kp ≤ 80) × (c.krp ≤ 80) }
    ensures { result ≡ one_elem c.kp c.krp (gr_of (c.krp / 8) c.at (bits_of s.now)) }
{
    let g = golomb(s, c.at, c.krp / 8);
    let next = past(c.at, c.krp / 8, g);
    let t = state(next, kp_one(c.kp, g), kr_after(c.krp, g));
    judged(s, next, 65534 < g, false, Element::One(0, g, t))
}

// "as many bits as g has (0 has none)": how often it can be halved until nothing is left
fn bit_size(g: usize) -> usize
    ensures { result ≡ size g }
{
    let mut n: usize = 0;
    let mut left = g;
    while left != 0 {
        left = left / 2;
        n += 1;
    }
    n
}

// "a first half above g is range", and either half too large
fn wide(g: usize, a: usize) -> bool
    ensures { result ≡ tooWide g a }
{
    g < a || 65534 < a || 65534 < g - a
}

// "If one place is left the second must be zero."
fn lone(left: usize, b: usize) -> bool
    ensures { result ≡ no_second_place left b }
{
    left < 2 && 0 < b
}

// "k = 0, RLGR3: GR g, then as many bits as g has give the first half, g less that the second"
fn two(s: &[u8], c: State, left: usize) -> Result<Element, Refusal>
    requires { (length s.now ≤ 65535) × (c.at ≤ 524280) × (c.kp ≤ 80) × (c.krp ≤ 80) }
    ensures { result ≡ two_elem c.kp c.krp left (bits_of s.now) (gr_of (c.krp / 8) c.at (bits_of s.now)) }
{
    let g = golomb(s, c.at, c.krp / 8);
    let mid = past(c.at, c.krp / 8, g);
    let next = mid + bit_size(g);
    let a = number(s, mid, next - mid);
    let b = less(g, a);
    let t = state(next, kp_two(c.kp, a, b), kr_after(c.krp, g));
    judged(s, next, wide(g, a), lone(left, b), Element::Two(a, b, t))
}

// "k > 0: each bit 0 is 2^k zeros, then kp + 4."
// "Bit 1: k bits give the remaining zeros, then a sign bit (1 negative), then GR + 1 is the magnitude"; "kp - 6"
fn run(s: &[u8], c: State, left: usize) -> Result<Element, Refusal>
    requires { (length s.now ≤ 65535) × (c.at ≤ 524280) × (c.kp ≤ 80) × (c.krp ≤ 80) }
    ensures { result ≡ run_elem c.kp c.krp left (bits_of s.now) (num_of 1 0 c.at (drop c.at (bits_of s.now))) }
{
    let k = c.kp / 8;
    let from = c.at + 1;
    if bit(s, c.at) == 0 {
        let t = state(from, more(c.kp, 4), c.krp);
        return judged(s, from, false, false, Element::Zeros(1usize << k, t));
    }
    let z = number(s, from, k);
    let sign = bit(s, from + k);
    let g = golomb(s, from + k + 1, c.krp / 8);
    let next = past(from + k + 1, c.krp / 8, g);
    let t = state(next, less(c.kp, 6), kr_after(c.krp, g));
    let v = 2 * (g + 1) - sign;
    judged(s, next, 32766 < g, left <= z, Element::One(z, v, t))
}

// "always k = floor(kp/8)"
fn element(s: &[u8], rlgr3: bool, c: State, left: usize) -> Result<Element, Refusal>
    requires { (length s.now ≤ 65535) × (c.at ≤ 524280) × (c.kp ≤ 80) × (c.krp ≤ 80) }
    ensures { result ≡ elem_of rlgr3 c.kp c.krp left c.at (bits_of s.now) }
{
    if 8 <= c.kp {
        return run(s, c, left);
    }
    if rlgr3 { two(s, c, left) } else { one(s, c) }
}

// ---- the list

// "Even is g/2, odd is -(g+1)/2."
fn unfolded(v: usize) -> i32
    requires { v ≤ 65534 }
    ensures { result ≡ unfold_z v }
{
    if v % 2 == 0 {
        (v / 2) as i32
    } else {
        -1 - (v / 2) as i32
    }
}

// 11 "after the 4,096th value, 8 or more bits remain or one of them is 1": whether it is not so.
fn clean_tail(s: &[u8], at: usize) -> bool
    requires { (length s.now ≤ 65535) × (at ≤ length s.now * 8) }
    ensures { result ≡ clean (drop at (bits_of s.now)) }
{
    let left = s.len() * 8 - at;
    left < 8 && number(s, at, left) == 0
}

// "A full run reaching or passing the 4,096th place is clipped there": n places past i.
fn onward(i: usize, n: usize) -> usize
    requires { i ≤ 4096 }
    ensures { result ≡ min 4096 (i + n) }
{
    i + n.min(4096 - i)
}

// "Start: kp = 8, krp = 8". A code and its tail, into a list of zeros.
fn read_code(rlgr3: bool, s: &[u8], list: &mut [i32]) -> Reading
    requires { (length s.now ≤ 65535) × (length list.old ≡ 4096) × (list.old ≡ replicate (length list.old) (pos 0)) }
    ensures { CodeRead rlgr3 s.now list.new result }
{
    let mut c = state(0, 8, 8);
    let mut i: usize = 0;
    while i < 4096 {
        match element(s, rlgr3, c, 4096 - i) {
            Err(refusal) => {
                return Reading::Refused(refusal);
            }
            Ok(Element::Zeros(z, t)) => {
                i = onward(i, z);
                c = t;
            }
            Ok(Element::One(z, v, t)) => {
                list[i + z] = unfolded(v);
                i = i + z + 1;
                c = t;
            }
            Ok(Element::Two(a, b, t)) => {
                list[i] = unfolded(a);
                if i < 4095 {
                    list[i + 1] = unfolded(b);
                }
                i = onward(i, 2);
                c = t;
            }
        }
    }
    if clean_tail(s, c.at) {
        return Reading::Done(c.at);
    }
    Reading::Tail(c.at)
}

// Every place 0.
pub fn clear(list: &mut [i32])
    ensures { list.new ≡ replicate (length list.old) (pos 0) }
{
    list.fill(0);
}

// 01's table of numbers. (No function of the product is called, `number` of wire's `Numbered` neither.)
fn refusal_number(refusal: Refusal) -> u8
    ensures { result ≡ refusal_number refusal }
{
    match refusal {
        Refusal::Cut => 1,
        Refusal::Buffer => 2,
        Refusal::Kind => 3,
        Refusal::Length => 4,
        Refusal::Field => 5,
        Refusal::TooBig => 6,
        Refusal::Quant => 7,
        Refusal::Place => 8,
        Refusal::Range => 9,
        Refusal::Overrun => 10,
        Refusal::Tail => 11,
        Refusal::Order => 12,
        Refusal::Room => 13,
    }
}

// 01's number: 0 done, 11 tail, or the refusal's.
pub fn reading_number(r: Reading) -> u8
    ensures { result ≡ reading_number r }
{
    match r {
        Reading::Done(_) => 0,
        Reading::Tail(_) => 11,
        Reading::Refused(refusal) => refusal_number(refusal),
    }
}

// The component call: "Component calls first refuse a mode that is neither of the two (5). Component reader: 2, 6, then the code"; it
// "leaves its output list untouched on 5, 2 and 6 and fills it with zeros on 1, 9, 10, 11."
pub fn read_component(mode: u8, s: &[u8], list: &mut [i32]) -> Reading
    ensures { ComponentRead mode s.now list.old list.new result }
{
    if mode != 1 && mode != 4 {
        return Reading::Refused(Refusal::Field);
    }
    if list.len() != 4096 {
        return Reading::Refused(Refusal::Buffer);
    }
    if 65535 < s.len() {
        return Reading::Refused(Refusal::TooBig);
    }
    clear(list);
    let r = read_code(mode == 4, s, list);
    if reading_number(r) != 0 {
        clear(list);
    }
    r
}
