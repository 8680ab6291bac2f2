// Document 01's "The component code" (001, 3.1.8.1.7): one code element read as an enum, and folding. The code of a list is
// defined in specs/Code from the list alone; specs/Laws says that it is read back, and that whatever is taken is the code of the list handed back.
ghost use Rattle.std.specs.Prelude.{◌≡◌, ◌+◌, ◌*◌, ◌-◌, ◌/◌, ◌<◌, ◌≤◌, length, drop};
ghost use Rattle.std.specs.Int.Signed.{mag};
ghost use Rattle.bits.specs.Bits.{got, bits_of, gr_of, num_of};
ghost use Rattle.code.specs.Fold.{fold_z, unfold_z};
ghost use Rattle.code.specs.Code.{kr_after, kp_one, kp_two, raised, size};
ghost use Rattle.code.specs.ReadList.{one_elem, two_elem, judge_two, judge_run, run_first, run_elem, elem_of};

use wire::Refusal;

// Where a walk through a code stands: the place of the next bit, and the two running parameters.
#[derive(Clone, Copy)]
pub struct State {
    pub at: usize,
    pub kp: usize,
    pub krp: usize,
}

// What the code of a list is made of: a full run of zeros, some zeros and a value, a value, or a pair. Values are folded.
#[derive(Clone, Copy)]
pub enum Item {
    Full,
    Run(usize, usize),
    Single(usize),
    Twin(usize, usize),
}

// One code element: zeros, one value after some zeros, or two values; with the state past it. Values are folded.
#[derive(Clone, Copy)]
pub enum Element {
    Zeros(usize, State),
    One(usize, usize, State),
    Two(usize, usize, State),
}

// "Even is g/2, odd is -(g+1)/2."
pub fn unfolded(v: usize) -> i32
    requires { v ≤ 65534 }
    ensures { result ≡ unfold_z v }
{
    if v % 2 == 0 {
        (v / 2) as i32
    } else {
        -1 - (v / 2) as i32
    }
}

// The same backwards.
pub fn folded(x: i32) -> usize
    requires { mag x ≤ 32767 }
    ensures { result ≡ fold_z x }
{
    if x < 0 {
        ((-1 - x) as usize) * 2 + 1
    } else {
        (x as usize) * 2
    }
}

// krp after the GR number g.
pub fn kr_after(krp: usize, g: usize) -> usize
    requires { krp ≤ 80 }
    ensures { result ≡ kr_after krp g }
{
    let v = g >> (krp / 8);
    if v < 2 {
        if v == 1 { krp } else { less(krp, 2) }
    } else {
        krp + v.min(80 - krp)
    }
}

// kp and d more, at most 80.
pub fn more(kp: usize, d: usize) -> usize
    requires { (kp ≤ 80) × (d ≤ 80) }
    ensures { result ≡ raised d kp }
{
    (kp + d).min(80)
}

// kp and d less, at least 0.
pub fn less(kp: usize, d: usize) -> usize
    ensures { result ≡ kp - d }
{
    kp.saturating_sub(d)
}

// kp after a single value, and after a pair.
pub fn kp_one(kp: usize, v: usize) -> usize
    requires { kp ≤ 80 }
    ensures { result ≡ kp_one kp v }
{
    if v == 0 { more(kp, 3) } else { less(kp, 3) }
}

pub fn kp_two(kp: usize, a: usize, b: usize) -> usize
    requires { kp ≤ 80 }
    ensures { result ≡ kp_two kp a b }
{
    if a == 0 {
        if b == 0 { more(kp, 6) } else { kp }
    } else {
        if b == 0 { kp } else { less(kp, 6) }
    }
}

// A single value judged: the GR number g.
pub fn judge_one(c: State, g: usize, next: usize) -> Result<Element, Refusal>
    requires { (c.kp ≤ 80) × (c.krp ≤ 80) }
    ensures { result ≡ one_elem c.kp c.krp (got g next) }
{
    if 65534 < g {
        return Err(Refusal::Range);
    }
    let kp = kp_one(c.kp, g);
    let krp = kr_after(c.krp, g);
    Ok(Element::One(0, g, State { at: next, kp, krp }))
}

// An element with k = 0 in RLGR1.
fn single(s: &[u8], c: State) -> Result<Element, Refusal>
    requires { (length s.now ≤ 65535) × (c.kp ≤ 80) × (c.krp ≤ 80) }
    ensures { result ≡ one_elem c.kp c.krp (gr_of (c.krp / 8) c.at (bits_of s.now)) }
{
    let (g, next) = bits::golomb(s, c.at, c.krp / 8).ok_or(Refusal::Cut)?;
    judge_one(c, g, next)
}

// How many bits g has, none for 0.
pub fn bit_size(g: usize) -> usize
    ensures { result ≡ size g }
{
    64 - (u64::leading_zeros(g as u64) as usize)
}

// A pair judged: the sum g, the first half a.
pub fn judge_pair(
    c: State,
    left: usize,
    g: usize,
    a: usize,
    next: usize,
) -> Result<Element, Refusal>
    requires { (c.kp ≤ 80) × (c.krp ≤ 80) }
    ensures { result ≡ judge_two c.kp c.krp left g a next }
{
    if g < a {
        return Err(Refusal::Range);
    }
    let b = g - a;
    if 65534 < a || 65534 < b {
        return Err(Refusal::Range);
    }
    if left < 2 && 0 < b {
        return Err(Refusal::Overrun);
    }
    let kp = kp_two(c.kp, a, b);
    let krp = kr_after(c.krp, g);
    Ok(Element::Two(a, b, State { at: next, kp, krp }))
}

// An element with k = 0 in RLGR3.
fn pair(s: &[u8], c: State, left: usize) -> Result<Element, Refusal>
    requires { (length s.now ≤ 65535) × (c.kp ≤ 80) × (c.krp ≤ 80) }
    ensures { result ≡ two_elem c.kp c.krp left (bits_of s.now) (gr_of (c.krp / 8) c.at (bits_of s.now)) }
{
    let (g, mid) = bits::golomb(s, c.at, c.krp / 8).ok_or(Refusal::Cut)?;
    let (a, next) = bits::number(s, mid, bit_size(g)).ok_or(Refusal::Cut)?;
    judge_pair(c, left, g, a, next)
}

// A run's value judged: z zeros, the sign, the magnitude less 1.
pub fn judge_run(
    c: State,
    left: usize,
    z: usize,
    sign: usize,
    g: usize,
    next: usize,
) -> Result<Element, Refusal>
    requires { (c.kp ≤ 80) × (c.krp ≤ 80) × (sign < 2) }
    ensures { result ≡ judge_run c.kp c.krp left z sign g next }
{
    if 32766 < g {
        return Err(Refusal::Range);
    }
    if left <= z {
        return Err(Refusal::Overrun);
    }
    let kp = less(c.kp, 6);
    let krp = kr_after(c.krp, g);
    Ok(Element::One(z, 2 * (g + 1) - sign, State { at: next, kp, krp }))
}

// The bits of a run after its 1.
fn run_value(s: &[u8], c: State, left: usize, from: usize) -> Result<Element, Refusal>
    requires { (length s.now ≤ 65535) × (c.kp ≤ 80) × (c.krp ≤ 80) }
    ensures { result ≡ run_first c.kp c.krp left (bits_of s.now) (num_of (c.kp / 8) 0 from (drop from (bits_of s.now))) }
{
    let (z, mid) = bits::number(s, from, c.kp / 8).ok_or(Refusal::Cut)?;
    let (sign, late) = bits::number(s, mid, 1).ok_or(Refusal::Cut)?;
    let (g, next) = bits::golomb(s, late, c.krp / 8).ok_or(Refusal::Cut)?;
    judge_run(c, left, z, sign, g, next)
}

// An element in run mode.
fn run(s: &[u8], c: State, left: usize) -> Result<Element, Refusal>
    requires { (length s.now ≤ 65535) × (c.kp ≤ 80) × (c.krp ≤ 80) }
    ensures { result ≡ run_elem c.kp c.krp left (bits_of s.now) (num_of 1 0 c.at (drop c.at (bits_of s.now))) }
{
    let (b, next) = bits::number(s, c.at, 1).ok_or(Refusal::Cut)?;
    if b == 0 {
        return Ok(Element::Zeros(
            1usize << (c.kp / 8),
            State {
                at: next,
                kp: more(c.kp, 4),
                krp: c.krp,
            },
        ));
    }
    run_value(s, c, left, next)
}

// One code element.
pub fn read_element(s: &[u8], rlgr3: bool, c: State, left: usize) -> Result<Element, Refusal>
    requires { (length s.now ≤ 65535) × (c.kp ≤ 80) × (c.krp ≤ 80) }
    ensures { result ≡ elem_of rlgr3 c.kp c.krp left c.at (bits_of s.now) }
{
    if 8 <= c.kp {
        return run(s, c, left);
    }
    if rlgr3 {
        pair(s, c, left)
    } else {
        single(s, c)
    }
}
