// Document 01, "Bands and the wavelet" (001, 3.1.8.1.5, 3.1.8.1.6, 3.1.8.2.2, 3.1.8.2.3): quantiser sets, LL3's sums and scaling on the reader's way;
// rounding and LL3's differences on the writer's; the range (9) for both. Bands are lent as parts of the work list.
// Judging multiplies and stores nothing; summing and scaling judge nothing and answer nothing (02, request Eight).
#![tactic(auto)]

ghost use Rattle.std.specs.Prelude.{◌≡◌, ℕ, ◌+◌, ◌-◌, ◌<◌, ◌≤◌, ◌^◌, pos, ◌+ℤ◌, ◌-ℤ◌, ◌*ℤ◌, length, get_or, take, drop};
ghost use Rattle.std.specs.Int.Signed.{shr_z};
ghost use Rattle.whole.specs.laws.Near.{Near};
ghost use Rattle.whole.specs.Tab.{at, table};
ghost use Rattle.whole.specs.laws.Tab.{AllNear};
ghost use Rattle.wire.specs.Refusal.{number_of};
ghost use Rattle.bands.specs.Bands.{quant_of, quant_at, QuantGood, is_good, band_at, sum_to, summed, scaled_by, coefficients_fault};
ghost use Rattle.bands.specs.Rounding.{round_z, round_at, diff_at, rounded_by};
ghost use Rattle.bands.specs.laws.Steps.{over_of, overs, limit_of, limit_at};

use wire::Refusal;

// A quantiser set: ten values in the set's order.
#[derive(Clone, Copy, PartialEq, Eq)]
pub struct Quant {
    pub v: [u8; 10],
}

// The set of five bytes at a place.
pub fn quant_at(m: &[u8], at: usize) -> Quant
    requires { at + 5 ≤ length m.now }
    ensures { result.v ≡ quant_of (take 5 (drop at m.now)) }
{
    let a = m[at];
    let b = m[at + 1];
    let c = m[at + 2];
    let d = m[at + 3];
    let e = m[at + 4];
    Quant {
        v: [
            a % 16,
            a / 16,
            b % 16,
            b / 16,
            c % 16,
            c / 16,
            d % 16,
            d / 16,
            e % 16,
            e / 16,
        ],
    }
}

// A band: where in the set its quantiser stands, and where it ends in the list.
#[derive(Clone, Copy)]
struct Band {
    set: usize,
    end: usize,
}

// The band of place k.
fn band_at(k: usize) -> Band
    ensures { result ≡ band_at k }
{
    let before = [
        Band { set: 8, end: 1024 },
        Band { set: 7, end: 2048 },
        Band { set: 9, end: 3072 },
        Band { set: 5, end: 3328 },
        Band { set: 4, end: 3584 },
        Band { set: 6, end: 3840 },
        Band { set: 2, end: 3904 },
        Band { set: 1, end: 3968 },
        Band { set: 3, end: 4032 },
    ];
    for b in before {
        if k < b.end {
            return b;
        }
    }
    Band { set: 0, end: 4096 }
}

fn plus(a: i32, b: i32) -> i32
    requires { Near 2097152 a × Near 32767 b }
    ensures { result ≡ a +ℤ b }
{
    a + b
}

fn times(a: i32, m: i32) -> i32
    requires { Near 32767 a × Near 16384 m }
    ensures { result ≡ a *ℤ m }
{
    a * m
}

fn power(k: u32) -> i32
    requires { k < 31 }
    ensures { result ≡ pos (2 ^ k) }
{
    (1u32 << k) as i32
}

// The quantiser of a band.
fn quant_of(q: Quant, b: Band) -> u32
    requires { QuantGood q.v × (b.set < 10) }
    ensures { (result ≡ get_or q.v b.set 0) × (6 ≤ result) × (result ≤ 15) }
{
    u32::from(q.v[b.set])
}

// ---- what is done to every value, by its band's quantiser

// To every value of a part.
fn each_value<F: Fn(i32) -> i32>(part: &mut [i32], f: F)
    requires near { AllNear 268435456 part.old }
    requires can { (k : ℕ) → k < length part.old → F.pre f (at part.old k) }
    ensures { (k : ℕ) → k < length part.old → F.post f (at part.old k) (at part.new k) }
{
    for v in part.iter_mut() {
        *v = f(*v);
    }
}

// To every value of a list, band by band: a step is as long as its band.
fn each_band<F: Fn(u32, i32) -> i32>(work: &mut [i32], q: Quant, f: F)
    requires good { (length work.old ≡ 4096) × AllNear 268435456 work.old × QuantGood q.v }
    requires can { (k : ℕ) → k < 4096 → F.pre f (quant_at q.v k) (at work.old k) }
    ensures { (k : ℕ) → k < 4096 → F.post f (quant_at q.v k) (at work.old k) (at work.new k) }
{
    let mut from = 0;
    while from < 4096 {
        let b = band_at(from);
        let to = b.end;
        let n = quant_of(q, b);
        each_value(
            &mut work[from..to],
            |v: i32| -> i32
                requires { F.pre f n v }
                ensures { F.post f n v result }
            { f(n, v) },
        );
        from = to;
    }
}

// ---- on the reader's way, to draw

// Running sums over LL3.
fn sum_part(part: &mut [i32])
    requires { (length part.old ≡ 64) × AllNear 32767 part.old }
    ensures { part.new ≡ table 64 (λ (i : ℕ). sum_to (at part.old) (i + 1)) }
{
    let mut s = 0;
    for v in part.iter_mut() {
        s = plus(s, *v);
        *v = s;
    }
}

// LL3's sums, in the last 64 places.
pub fn sum_up(work: &mut [i32])
    requires { (length work.old ≡ 4096) × AllNear 32767 work.old }
    ensures { work.new ≡ summed work.old }
{
    sum_part(&mut work[4032..4096]);
}

// Scaling, band by band.
pub fn scale_up(work: &mut [i32], q: Quant)
    requires { (length work.old ≡ 4096) × AllNear 32767 work.old × QuantGood q.v }
    ensures { work.new ≡ scaled_by q.v work.old }
{
    each_band(
        work,
        q,
        |n: u32, v: i32| -> i32
            requires { (6 ≤ n) × (n ≤ 15) × Near 32767 v }
            ensures { result ≡ v *ℤ pos (2 ^ (n - 1)) }
        { times(v, power(n - 1)) },
    );
}

// ---- on both ways: a list judged, place by place

// The largest size that stays in range when it is scaled.
fn limit(n: u32) -> u16
    requires { (6 ≤ n) × (n ≤ 15) }
    ensures { result ≡ limit_of n }
{
    32767u16 >> (n - 1)
}

// 1 where v is above m in size, else 0: a sum of two tests, so that a loop over a band has no branch.
fn over(v: i32, m: u16) -> u32
    ensures { result ≡ over_of m v }
{
    let most = m as i32;
    u32::from(v > most) + u32::from(v < -most)
}

// How many of a band are above a limit in size.
fn count_over(part: &[i32], m: u16) -> u32
    requires { length part.now ≤ 4096 }
    ensures { result ≡ overs (λ (i : ℕ). m) (at part.now) (length part.now) }
{
    let mut bad = 0;
    for v in part {
        bad += over(*v, m);
    }
    bad
}

// How many of LL3's running sums are above a limit in size. A loop of its own: one count over any numbers has a longer contract than both.
fn count_sums(part: &[i32], m: u16) -> u32
    requires { (length part.now ≡ 64) × AllNear 32767 part.now }
    ensures { result ≡ overs (λ (i : ℕ). m) (λ (i : ℕ). sum_to (at part.now) (i + 1)) 64 }
{
    let mut sum = 0;
    let mut bad = 0;
    for v in part {
        sum = plus(sum, *v);
        bad += over(sum, m);
    }
    bad
}

// The nine bands before LL3: how many of their values would leave the range when scaled. The walk is `each_band`'s,
// which stores: judging stores nothing.
fn count_bands(work: &[i32], q: Quant) -> u32
    requires { (length work.now ≡ 4096) × QuantGood q.v }
    ensures { result ≡ overs (limit_at q.v) (at work.now) 4032 }
{
    let mut bad = 0;
    let mut from = 0;
    while from < 4032 {
        let b = band_at(from);
        let to = b.end;
        let n = quant_of(q, b);
        bad += count_over(&work[from..to], limit(n));
        from = to;
    }
    bad
}

// A list judged as its reader does and its writer must: its coefficients, LL3's sums and the scaled values, fine or out of range.
pub fn judge(work: &[i32], q: Quant) -> Result<(), Refusal>
    requires { (length work.now ≡ 4096) × QuantGood q.v }
    ensures { number_of result ≡ coefficients_fault q.v work.now }
{
    if count_bands(work, q) != 0 {
        return Err(Refusal::Range);
    }
    if count_over(&work[4032..4096], 32767) != 0 {
        return Err(Refusal::Range);
    }
    let n = quant_of(q, band_at(4032));
    if count_sums(&work[4032..4096], limit(n)) != 0 {
        return Err(Refusal::Range);
    }
    Ok(())
}

// ---- on the writer's way

fn rounded(v: i32, half: i32, k: u32) -> i32
    requires { Near 268435456 v × Near 8192 half × (k < 31) }
    ensures { result ≡ shr_z (v +ℤ half) (2 ^ k) }
{
    (v + half) >> k
}

// Rounding, band by band: half of the divisor added, then shifted down.
fn round_bands(work: &mut [i32], q: Quant)
    requires { (length work.old ≡ 4096) × AllNear 268435456 work.old × QuantGood q.v }
    ensures { work.new ≡ table 4096 (round_at q.v (at work.old)) }
{
    each_band(
        work,
        q,
        |n: u32, v: i32| -> i32
            requires { (6 ≤ n) × (n ≤ 15) × Near 268435456 v }
            ensures { result ≡ round_z n v }
        { rounded(v, power(n - 2), n - 1) },
    );
}

fn minus(a: i32, b: i32) -> i32
    requires { Near 268443648 a × Near 268443648 b }
    ensures { result ≡ a -ℤ b }
{
    a - b
}

// LL3's first value and then differences.
fn difference_part(part: &mut [i32])
    requires { (length part.old ≡ 64) × AllNear 268443648 part.old }
    ensures { part.new ≡ table 64 (diff_at (at part.old)) }
{
    let mut last = 0;
    for v in part.iter_mut() {
        let here = *v;
        *v = minus(here, last);
        last = here;
    }
}

// What the writer makes of the wavelet's values: rounding, then LL3's differences, in the last 64 places.
pub fn round_all(work: &mut [i32], q: Quant)
    requires { (length work.old ≡ 4096) × AllNear 268435456 work.old × QuantGood q.v }
    ensures { work.new ≡ rounded_by q.v work.old }
{
    round_bands(work, q);
    difference_part(&mut work[4032..4096]);
}

// A set's ten values, judged: all from 6 to 15.
pub fn is_good(q: Quant) -> bool
    ensures { result ≡ is_good q.v }
{
    // By place: an iterator's step is an `Option` of a reference, which a 32-bit machine does not tell apart (docs/landings/19-arm.md).
    for i in 0..10 {
        let x = q.v[i];
        if x < 6 {
            return false;
        }
        if 15 < x {
            return false;
        }
    }
    true
}
