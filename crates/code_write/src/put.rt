// The writer's half of document 01's "The component code": the next item of a list is chosen, its bits are put, and the running
// parameters go on. "The writer closes a list's last zeros, while k > 0, with full runs until they are covered."
ghost use Rattle.std.specs.Prelude.{◌≡◌, true, false, map, leb, ◌+◌, ◌*◌, ◌/◌, ◌^◌, ◌<◌, ◌≤◌, min, length, drop, get_or};
ghost use Rattle.bits.specs.Bits.{num_bits, gr_bits};
ghost use Rattle.bits.specs.laws.Gr.{gr_len};
ghost use Rattle.bits.specs.Pen.{Ready, Put, ReadyWide, PutWide};
ghost use Rattle.code.specs.Code.{InRange, zeros_of, run_bits, pair_bits, code_of, item_of, item_bits, item_used, item_kp, item_krp};
ghost use Rattle.code.specs.Fold.{fold_z};
ghost use Rattle.code_write.specs.laws.Item.{SmallItem, FewZeros, Zeros};
ghost use Rattle.code_write.specs.laws.Writing.{Standing, Onward};

use bits::Pen;
use code::element::Item;

// Where the writing of a list stands: the pen, the next place, and the two running parameters.
#[derive(Clone, Copy)]
struct Stand {
    pen: Pen,
    i: usize,
    kp: usize,
    krp: usize,
}

// The number at place i, folded.
fn folded_at(xs: &[i32], i: usize) -> usize
    requires { (i < length xs.now) × InRange (map fold_z xs.now) }
    ensures { result ≡ get_or (map fold_z xs.now) i 0 }
{
    code::element::folded(xs[i])
}

// The same, and 0 past the last place.
fn folded_or(xs: &[i32], i: usize) -> usize
    requires { InRange (map fold_z xs.now) }
    ensures { result ≡ get_or (map fold_z xs.now) i 0 }
{
    if i < xs.len() { folded_at(xs, i) } else { 0 }
}

// Do four zeros stand from place j on?
fn four(xs: &[i32], j: usize) -> bool
    requires { InRange (map fold_z xs.now) × (j + 4 ≤ length xs.now) }
    ensures { result ≡ leb 4 (zeros_of (drop j (map fold_z xs.now))) }
{
    if folded_at(xs, j) != 0 {
        return false;
    }
    if folded_at(xs, j + 1) != 0 {
        return false;
    }
    if folded_at(xs, j + 2) != 0 {
        return false;
    }
    if folded_at(xs, j + 3) != 0 {
        return false;
    }
    true
}

// A place up to `end` before which, from i on, stand only zeros: they are passed four at a time. (A `while`: the last step is not taken where fewer are left,
// so a `step_by` reads no plainer.)
fn fours(xs: &[i32], i: usize, end: usize) -> usize
    requires { InRange (map fold_z xs.now) × (i ≤ end) × (end ≤ length xs.now) }
    ensures { Zeros (map fold_z xs.now) i result × (result ≤ end) }
{
    let mut j = i;
    while 4 <= end - j {
        if !four(xs, j) {
            return j;
        }
        j += 4;
    }
    j
}

// The zeros from place i on, counted up to `most`.
fn zeros_from(xs: &[i32], i: usize, most: usize) -> usize
    requires { (length xs.now ≤ 4096) × InRange (map fold_z xs.now) × (i ≤ length xs.now) }
    ensures { result ≡ min most (zeros_of (drop i (map fold_z xs.now))) }
{
    let end = code::read::clipped(xs.len(), i, most);
    for j in fours(xs, i, end)..end {
        if folded_at(xs, j) != 0 {
            return j - i;
        }
    }
    end - i
}

// The item at place i in run mode: a full run, which may pass the end, or some zeros and the value after them.
fn choose_run(xs: &[i32], i: usize, rlgr3: bool, kp: usize) -> Item
    requires { (length xs.now ≤ 4096) × InRange (map fold_z xs.now) × (i < length xs.now) × (8 ≤ kp) × (kp ≤ 80) }
    ensures { result ≡ item_of rlgr3 kp (drop i (map fold_z xs.now)) }
{
    let full = 1usize << (kp / 8);
    let z = zeros_from(xs, i, full);
    let left = xs.len() - i;
    if full <= z {
        return Item::Full;
    }
    if left <= z {
        return Item::Full;
    }
    let v = folded_at(xs, i + z);
    Item::Run(z, v)
}

// The item at place i.
fn choose(xs: &[i32], i: usize, rlgr3: bool, kp: usize) -> Item
    requires { (length xs.now ≤ 4096) × InRange (map fold_z xs.now) × (i < length xs.now) × (kp ≤ 80) }
    ensures { result ≡ item_of rlgr3 kp (drop i (map fold_z xs.now)) }
{
    if 8 <= kp {
        return choose_run(xs, i, rlgr3, kp);
    }
    let a = folded_at(xs, i);
    if rlgr3 {
        let b = folded_or(xs, i + 1);
        return Item::Twin(a, b);
    }
    Item::Single(a)
}

// A GR number n with few ones: these, the zero and the low bits as one number.
fn gr_word(k: usize, n: usize, v: usize) -> usize
    requires { (v ≡ n / 2 ^ k) × (v < 22) × (k ≤ 10) }
    ensures { (num_bits (v + (k + 1)) result ≡ gr_bits k n) × (result < 2 ^ (v + (k + 1))) }
{
    (((1usize << v) - 1) << (k + 1)) + n % (1usize << k)
}

// A GR number, most often of few ones. (Put where it is called: as a function by itself it costs the writer a quarter more instructions.)
#[inline(always)]
fn put_gr(out: &mut [u8], p: Pen, krp: usize, n: usize) -> Pen
    requires { ReadyWide (length out.old) p (gr_len (krp / 8) n) × (krp ≤ 80) }
    ensures { PutWide out.old p out.new result (gr_bits (krp / 8) n) }
{
    let k = krp / 8;
    let v = n >> k;
    if v < 22 {
        return bits::wide::put(out, p, v + (k + 1), gr_word(k, n, v));
    }
    bits::wide::put_gr(out, p, k, n)
}

// A run's value: 1, the zeros and the sign as one number, then the magnitude less 1.
fn put_run(out: &mut [u8], p: Pen, kp: usize, krp: usize, z: usize, v: usize) -> Pen
    requires { ReadyWide (length out.old) p (length (run_bits kp krp z v)) × (kp ≤ 80) × (krp ≤ 80) × (z < 2 ^ (kp / 8)) × (0 < v) }
    ensures { PutWide out.old p out.new result (run_bits kp krp z v) }
{
    let h = kp / 8;
    let q = bits::wide::put(out, p, h + 2, ((1usize << h) + z) * 2 + v % 2);
    put_gr(out, q, krp, (v - 1) / 2)
}

// A pair: the sum, then the first in as many bits as the sum has.
fn put_twin(out: &mut [u8], p: Pen, krp: usize, a: usize, b: usize) -> Pen
    requires { ReadyWide (length out.old) p (length (pair_bits krp a b)) × (krp ≤ 80) × (a ≤ 65534) × (b ≤ 65534) }
    ensures { PutWide out.old p out.new result (pair_bits krp a b) }
{
    let n = code::element::bit_size(a + b);
    let q = put_gr(out, p, krp, a + b);
    bits::wide::put(out, q, n, a)
}

// How many bits a GR number has.
fn gr_size(krp: usize, n: usize) -> usize
    requires { (krp ≤ 80) × (n ≤ 131068) }
    ensures { result ≡ gr_len (krp / 8) n }
{
    (n >> (krp / 8)) + 1 + krp / 8
}

// How many bits an item has.
fn item_size(kp: usize, krp: usize, it: Item) -> usize
    requires { (kp ≤ 80) × (krp ≤ 80) × SmallItem it }
    ensures { result ≡ length (item_bits kp krp it) }
{
    match it {
        Item::Full => 1,
        Item::Single(v) => gr_size(krp, v),
        Item::Twin(a, b) => gr_size(krp, a + b) + code::element::bit_size(a + b),
        Item::Run(_, v) => kp / 8 + 2 + gr_size(krp, (v - 1) / 2),
    }
}

// How many places an item covers.
fn item_used(kp: usize, it: Item) -> usize
    requires { (kp ≤ 80) × FewZeros it }
    ensures { result ≡ item_used kp it }
{
    match it {
        Item::Full => 1usize << (kp / 8),
        Item::Single(_) => 1,
        Item::Twin(_, _) => 2,
        Item::Run(z, _) => z + 1,
    }
}

// kp after an item.
fn item_kp(kp: usize, it: Item) -> usize
    requires { kp ≤ 80 }
    ensures { result ≡ item_kp kp it }
{
    match it {
        Item::Full => code::element::more(kp, 4),
        Item::Single(v) => code::element::kp_one(kp, v),
        Item::Twin(a, b) => code::element::kp_two(kp, a, b),
        Item::Run(_, _) => code::element::less(kp, 6),
    }
}

// krp after an item.
fn item_krp(krp: usize, it: Item) -> usize
    requires { (krp ≤ 80) × SmallItem it }
    ensures { result ≡ item_krp krp it }
{
    match it {
        Item::Full => krp,
        Item::Single(v) => code::element::kr_after(krp, v),
        Item::Twin(a, b) => code::element::kr_after(krp, a + b),
        Item::Run(_, v) => code::element::kr_after(krp, (v - 1) / 2),
    }
}

// One item more in run mode: a full run, which may pass the end, or some zeros and the value after them.
fn run_turn(out: &mut [u8], s: Stand, xs: &[i32], rlgr3: bool) -> Stand
    requires { Standing rlgr3 xs.now (length out.old) s × (8 ≤ s.kp) }
    ensures { Onward rlgr3 (map fold_z xs.now) out.old s out.new result }
{
    let i = s.i;
    let kp = s.kp;
    let full = 1usize << (kp / 8);
    let z = zeros_from(xs, i, full);
    if code::read::clipped(xs.len(), i, full) <= i + z {
        return Stand {
            pen: bits::wide::put(out, s.pen, 1, 0),
            i: i + full,
            kp: code::element::more(kp, 4),
            krp: s.krp,
        };
    }
    let v = folded_at(xs, i + z);
    Stand {
        pen: put_run(out, s.pen, kp, s.krp, z, v),
        i: i + (z + 1),
        kp: code::element::less(kp, 6),
        krp: code::element::kr_after(s.krp, (v - 1) / 2),
    }
}

// One pair more.
fn twin_turn(out: &mut [u8], s: Stand, xs: &[i32]) -> Stand
    requires { Standing true xs.now (length out.old) s × (s.kp < 8) }
    ensures { Onward true (map fold_z xs.now) out.old s out.new result }
{
    let i = s.i;
    let a = folded_at(xs, i);
    let b = folded_or(xs, i + 1);
    Stand {
        pen: put_twin(out, s.pen, s.krp, a, b),
        i: i + 2,
        kp: code::element::kp_two(s.kp, a, b),
        krp: code::element::kr_after(s.krp, a + b),
    }
}

// One single value more.
fn single_turn(out: &mut [u8], s: Stand, xs: &[i32]) -> Stand
    requires { Standing false xs.now (length out.old) s × (s.kp < 8) }
    ensures { Onward false (map fold_z xs.now) out.old s out.new result }
{
    let i = s.i;
    let v = folded_at(xs, i);
    Stand {
        pen: put_gr(out, s.pen, s.krp, v),
        i: i + 1,
        kp: code::element::kp_one(s.kp, v),
        krp: code::element::kr_after(s.krp, v),
    }
}

// One item more. A function for each kind of item: an item that is built and taken apart again costs the compiler's code more than its bits do.
fn put_turn(out: &mut [u8], s: Stand, xs: &[i32], rlgr3: bool) -> Stand
    requires { Standing rlgr3 xs.now (length out.old) s }
    ensures { Onward rlgr3 (map fold_z xs.now) out.old s out.new result }
{
    if 8 <= s.kp {
        return run_turn(out, s, xs, rlgr3);
    }
    if rlgr3 {
        return twin_turn(out, s, xs);
    }
    single_turn(out, s, xs)
}

// The code of a list, from the pen on.
pub fn put_list(out: &mut [u8], p: Pen, xs: &[i32], rlgr3: bool) -> Pen
    requires { Ready (length out.old) p (length (code_of rlgr3 (map fold_z xs.now))) × (length xs.now ≤ 4096) × InRange (map fold_z xs.now) }
    ensures { Put out.old p out.new result (code_of rlgr3 (map fold_z xs.now)) }
{
    let mut s = Stand {
        pen: p,
        i: 0,
        kp: 8,
        krp: 8,
    };
    // (A `while`, here and in `list_size`: how many places a turn covers is its item's.)
    while s.i < xs.len() {
        s = put_turn(out, s, xs, rlgr3);
    }
    bits::wide::close(out, s.pen)
}

// How many bits the code of a list has.
pub fn list_size(xs: &[i32], rlgr3: bool) -> usize
    requires { (length xs.now ≤ 4096) × InRange (map fold_z xs.now) }
    ensures { (result ≡ length (code_of rlgr3 (map fold_z xs.now))) × (result ≤ 4096 * 131200) }
{
    let mut n: usize = 0;
    let mut i: usize = 0;
    let mut kp: usize = 8;
    let mut krp: usize = 8;
    while i < xs.len() {
        let it = choose(xs, i, rlgr3, kp);
        n += item_size(kp, krp, it);
        i += item_used(kp, it);
        kp = item_kp(kp, it);
        krp = item_krp(krp, it);
    }
    n
}
