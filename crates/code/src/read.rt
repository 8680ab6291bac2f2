// The component reader of document 01: "The component code", the numbers 5, 2, 6, 1, 9, 10, 11 and their order, and "The component reader leaves its
// output list untouched on 5, 2 and 6 and fills it with zeros on 1, 9, 10, 11." One pass: the list is cleared, and runs of zeros store nothing.
// The code is read a word at a time where eight bytes are left (document 02, request Ten): an element, or full runs together; else by `element`.
// `read_checked` reads a code a second time, to draw from: it has no way out (document 02, request Eight).
ghost use Rattle.std.specs.Prelude.{◌≡◌, true, false, ◌+◌, ◌*◌, ◌/◌, ◌<◌, ◌-◌, ◌≤◌, min, length, drop, replicate, pos};
ghost use Rattle.bits.specs.Bits.{bits_of};
ghost use Rattle.code.specs.ReadList.{read_list};
ghost use Rattle.code.specs.Fill.{Fills, Fine, placed_of, stored_of, leap_of, onward_of, Storable, Kept};
ghost use Rattle.code.specs.Fill.{Open, Worded, Valued, value_of, Quickly, Turned, EitherTurned, Rushed};
ghost use Rattle.wire.specs.Refusal.{number_of};
ghost use Rattle.code.specs.Read.{clean, shell_fault, read_fault, reading_number, reading_bits, decoded, CodeRead, ComponentRead};

use crate::element::{Element, State};
use wire::{Numbered, Refusal};

// What reading a component found: its list, and the code's length in bits; the code's length, but a tail behind it; or a refusal. (Three ways, and no
// Result: a tail is refused, but 01 wants its code's length told.)
#[derive(Clone, Copy)]
pub enum Reading {
    Done(usize),
    Tail(usize),
    Refused(Refusal),
}

// 01's number.
pub fn reading_number(r: Reading) -> u8
    ensures { result ≡ reading_number r }
{
    match r {
        Reading::Done(_) => 0,
        Reading::Tail(_) => 11,
        Reading::Refused(refusal) => refusal.number(),
    }
}

// "The component reader reports the code's length in bits on 0 and 11, else 0."
pub fn reading_bits(r: Reading) -> usize
    ensures { result ≡ reading_bits r }
{
    match r {
        Reading::Done(bits) => bits,
        Reading::Tail(bits) => bits,
        Reading::Refused(_) => 0,
    }
}

// Stores the values of an element at place i of a list that holds zeros from there on. The answer is the next place and the state there.
fn place(list: &mut [i32], i: usize, e: Element) -> (usize, State)
    requires { (length list.old ≤ 4096) × (i < length list.old) × Fine (length list.old) i e }
    ensures { (result ≡ placed_of (length list.old) i e) × (list.new ≡ stored_of list.old i e) }
{
    match e {
        Element::Zeros(z, t) => {
            if list.len() - i < z {
                return (list.len(), t);
            }
            (i + z, t)
        }
        Element::One(z, v, t) => {
            list[i + z] = crate::element::unfolded(v);
            (i + z + 1, t)
        }
        Element::Two(a, b, t) => {
            list[i] = crate::element::unfolded(a);
            if list.len() - i < 2 {
                return (list.len(), t);
            }
            list[i + 1] = crate::element::unfolded(b);
            (i + 2, t)
        }
    }
}

// The place z places past j, at most n.
pub fn clipped(n: usize, j: usize, z: usize) -> usize
    requires { j ≤ n }
    ensures { result ≡ min n (j + z) }
{
    j + z.min(n - j)
}

// As many of m full runs, from the state c on, as there are places for among n from place i on: the next place and the state there.
fn full_runs(n: usize, i: usize, c: State, m: usize) -> (usize, State)
    requires { (n ≤ 4096) × (i ≤ n) × (c.kp ≤ 80) × (c.at ≤ 524280) × (m ≤ 57) }
    ensures { result ≡ leap_of m n i c }
{
    // (A `while`: how many were taken is asked for behind the loop, so a `for` reads no plainer.)
    let mut kp = c.kp;
    let mut j = i;
    let mut k: usize = 0;
    while k < m && j < n {
        j = clipped(n, j, 1usize << (kp / 8));
        kp = crate::element::more(kp, 4);
        k += 1;
    }
    (
        j,
        State {
            at: c.at + k,
            kp,
            krp: c.krp,
        },
    )
}

// The state t, its place counted from `at` on.
fn onward(at: usize, t: State) -> State
    requires { (at ≤ 524280) × (t.at ≤ 57) }
    ensures { result ≡ onward_of at t }
{
    State {
        at: at + t.at,
        kp: t.kp,
        krp: t.krp,
    }
}

// Stores what was read of the word at place `at`, unless that is a refusal. A turn by a word answers the next place and the state there, or that the slow
// way is due.
fn keep(
    list: &mut [i32],
    i: usize,
    at: usize,
    e: Result<Element, Refusal>,
) -> Option<(usize, State)>
    requires { (length list.old ≤ 4096) × (i < length list.old) × (at ≤ 524280) × Storable (length list.old) i e }
    ensures { Kept at i list.old list.new e result }
{
    match e {
        Err(_) => None,
        Ok(e) => {
            let (j, t) = place(list, i, e);
            Some((j, onward(at, t)))
        }
    }
}

// Stores the single value at c, if it lies whole in w, the word there.
fn quick_single(w: u64, c: State, list: &mut [i32], i: usize) -> Option<(usize, State)>
    requires { Worded w list.old c i × (c.kp < 8) }
    ensures { Turned false w c i list.old list.new result }
{
    let t = State {
        at: 0,
        kp: c.kp,
        krp: c.krp,
    };
    keep(list, i, c.at, crate::word::single_in(w, t))
}

// Stores the pair at c, if it lies whole in w, the word there.
fn quick_pair(w: u64, c: State, list: &mut [i32], i: usize) -> Option<(usize, State)>
    requires { Worded w list.old c i × (c.kp < 8) }
    ensures { Turned true w c i list.old list.new result }
{
    let t = State {
        at: 0,
        kp: c.kp,
        krp: c.krp,
    };
    let e = crate::word::pair_in(w, t, list.len() - i);
    keep(list, i, c.at, e)
}

// Stores the run's value whose 1 stands at place m of the word w, if it lies whole in it; `at` is the word's place.
fn quick_value(
    w: u64,
    m: usize,
    at: usize,
    t: State,
    list: &mut [i32],
    j: usize,
) -> Option<(usize, State)>
    requires { Valued w m at t list.old j }
    ensures { Kept at j list.old list.new (value_of w m t (length list.old - j)) result }
{
    let c = State {
        at: m,
        kp: t.kp,
        krp: t.krp,
    };
    let e = crate::word::run_value_in(w, c, list.len() - j, m + 1);
    keep(list, j, at, e)
}

// Takes the full runs at c together, as far as w goes, the word there, and stores the value behind them, if it lies whole in w too. (In either mode: an
// element in run mode is the same in both.)
fn quick_run(w: u64, c: State, list: &mut [i32], i: usize) -> Option<(usize, State)>
    requires { Worded w list.old c i × (8 ≤ c.kp) }
    ensures { EitherTurned w c i list.old list.new result }
{
    let n = list.len();
    let m = bits::word::zeros_in(w);
    let (j, t) = full_runs(n, i, c, m);
    if 57 <= m {
        return Some((j, t));
    }
    if n <= j {
        return Some((j, t));
    }
    match quick_value(w, m, c.at, t, list, j) {
        Some((l, u)) => Some((l, u)),
        None => {
            if m == 0 {
                return None;
            }
            Some((j, t))
        }
    }
}

// A turn by the word at c: full runs together and the value behind them, or a single value, or a pair. The word is looked at once, whichever it is.
fn quick_turn(s: &[u8], rlgr3: bool, c: State, list: &mut [i32], i: usize) -> Option<(usize, State)>
    requires { Open rlgr3 s.now list.old c i }
    ensures { Quickly rlgr3 (bits_of s.now) i list.old list.new result }
{
    if s.len() < c.at / 8 + 8 {
        return None;
    }
    let w = bits::word::look(s, c.at);
    if 8 <= c.kp {
        return quick_run(w, c, list, i);
    }
    if rlgr3 {
        return quick_pair(w, c, list, i);
    }
    quick_single(w, c, list, i)
}

// Turns by words, one after the other, as far as they lead: the list is full there, or the slow way is due. (A loop by itself, so that it is compiled
// without the slow way's variables.)
fn rush(s: &[u8], rlgr3: bool, from: State, list: &mut [i32], first: usize) -> (usize, State)
    requires { Open rlgr3 s.now list.old from first }
    ensures { Rushed rlgr3 (bits_of s.now) (length list.old) first list.new result }
{
    let n = list.len();
    let mut c = from;
    let mut i = first;
    // (A `while`, here and in `fill`: how far a turn goes is what the code says.)
    while i < n {
        match quick_turn(s, rlgr3, c, list, i) {
            None => {
                return (i, c);
            }
            Some((j, t)) => {
                i = j;
                c = t;
            }
        }
    }
    (i, c)
}

// Reads the values of a code into a list that holds zeros: the code's length in bits.
fn fill(s: &[u8], rlgr3: bool, list: &mut [i32]) -> Result<usize, Refusal>
    requires { (length s.now ≤ 65535) × (length list.old ≤ 4096) × (list.old ≡ replicate (length list.old) (pos 0)) }
    ensures { Fills (read_list rlgr3 (length list.old) (bits_of s.now)) list.new result }
{
    let n = list.len();
    let mut c = State {
        at: 0,
        kp: 8,
        krp: 8,
    };
    let mut i: usize = 0;
    while i < n {
        let (j, t) = rush(s, rlgr3, c, list, i);
        if n <= j {
            return Ok(t.at);
        }
        let e = crate::element::read_element(s, rlgr3, t, n - j)?;
        let (l, u) = place(list, j, e);
        i = l;
        c = u;
    }
    Ok(c.at)
}

// A list cleared and filled from a code: for the component call and for drawing. (One caller of the loop, so that it is compiled with its slices at hand.)
fn decode(s: &[u8], rlgr3: bool, list: &mut [i32]) -> Result<usize, Refusal>
    requires { (length s.now ≤ 65535) × (length list.old ≡ 4096) }
    ensures { Fills (read_list rlgr3 4096 (bits_of s.now)) list.new result }
{
    whole::clear(list);
    fill(s, rlgr3, list)
}

// Whether fewer than 8 bits stand from a place on, and none of them is 1.
fn clean_tail(s: &[u8], at: usize) -> bool
    requires { (length s.now ≤ 65535) × (at ≤ length s.now * 8) }
    ensures { result ≡ clean (drop at (bits_of s.now)) }
{
    let left = s.len() * 8 - at;
    if 8 <= left {
        return false;
    }
    match bits::number(s, at, left) {
        None => false,
        Some((v, _)) => v == 0,
    }
}

// What is judged before the code: mode (5), list (2), size (6).
fn shell_judge(mode: u8, n: usize, len: usize) -> Result<(), Refusal>
    ensures { number_of result ≡ shell_fault mode n len }
{
    if !wire::is_mode(mode as usize) {
        return Err(Refusal::Field);
    }
    if n != 4096 {
        return Err(Refusal::Buffer);
    }
    if 65535 < len {
        return Err(Refusal::TooBig);
    }
    Ok(())
}

// A code and its tail, into a list of 4,096.
fn read_code(rlgr3: bool, s: &[u8], list: &mut [i32]) -> Reading
    requires { (length s.now ≤ 65535) × (length list.old ≡ 4096) }
    ensures { CodeRead rlgr3 s.now list.new result }
{
    match decode(s, rlgr3, list) {
        Err(refusal) => Reading::Refused(refusal),
        Ok(at) => {
            if clean_tail(s, at) {
                return Reading::Done(at);
            }
            Reading::Tail(at)
        }
    }
}

// The component reader, for any input.
pub fn read_component(mode: u8, s: &[u8], list: &mut [i32]) -> Reading
    ensures { ComponentRead mode s.now list.old list.new result }
{
    match shell_judge(mode, list.len(), s.len()) {
        Err(refusal) => Reading::Refused(refusal),
        Ok(()) => {
            let r = read_code(mode == 4, s, list);
            if reading_number(r) != 0 {
                whole::clear(list);
                return r;
            }
            r
        }
    }
}

// A code that was read without a fault, once more, to draw from: nothing is judged, and nothing is answered. What `decode` answers is not asked
// for: it keeps its refusal for the component call, and of such a code it is `Ok` (law `checked_whole`).
pub fn read_checked(mode: u8, s: &[u8], list: &mut [i32])
    requires { (length list.old ≡ 4096) × (0 ≡ read_fault mode 4096 s.now) }
    ensures { list.new ≡ decoded mode s.now }
{
    let _ = decode(s, mode == 4, list);
}
