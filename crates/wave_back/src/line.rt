// One line of the way back, of document 01's "Bands and the wavelet" (001, 3.1.8.2.4): "x[2n] = L[n] - floor((H[n-1] + H[n] + 1)/2)" and the odd
// places from the even ones, with the rounding of 001's sample; and the row pass of a pair of bands.
ghost use Rattle.std.specs.Prelude.{◌≡◌, ◌+◌, ◌-◌, ◌*◌, ◌<◌, ◌≤◌, length};
ghost use Rattle.whole.specs.laws.Near.{Near};
ghost use Rattle.whole.specs.Tab.{at, table, grid};
ghost use Rattle.whole.specs.laws.Tab.{AllNear};
ghost use Rattle.wave_back.specs.Line.{row_avg, col_avg, even_z, odd_z, line_at, row_at};

// x[2n]: l is L[n], g is H[n-1], h is H[n].
pub fn even(l: i32, g: i32, h: i32) -> i32
    requires { Near 268435456 l × Near 268435456 g × Near 268435456 h }
    ensures { result ≡ even_z l g h }
{
    l - ((g + h + 1) >> 1)
}

// x[2n+1] along a row: x is x[2n], y is x[2n+2]; the average is toward zero.
fn odd_along(h: i32, x: i32, y: i32) -> i32
    requires { Near 268435456 h × Near 536870913 x × Near 536870913 y }
    ensures { result ≡ odd_z row_avg h x y }
{
    2 * h + (x + y) / 2
}

// x[2n+1] down a column: each half is toward zero.
pub fn odd_down(h: i32, x: i32, y: i32) -> i32
    requires { Near 268435456 h × Near 536870913 x × Near 536870913 y }
    ensures { result ≡ odd_z col_avg h x y }
{
    2 * h + (x / 2 + y / 2)
}

// One row from its low and its high half. One loop that carries the even place, so that it is made once.
fn line(lo: &[i32], hi: &[i32], out: &mut [i32])
    requires in_bounds { (1 ≤ length lo.now) × (length hi.now ≡ length lo.now) × (length out.old ≡ 2 * length lo.now) }
    requires all_near { AllNear 268435456 lo.now × AllNear 268435456 hi.now }
    ensures { out.new ≡ table (2 * length lo.now) (line_at row_avg (length lo.now) (at lo.now) (at hi.now)) }
{
    let last = lo.len() - 1;
    let mut x = even(lo[0], hi[0], hi[0]);
    for j in 0..last {
        let y = even(lo[j + 1], hi[j], hi[j + 1]);
        let z = odd_along(hi[j], x, y);
        out[2 * j] = x;
        out[2 * j + 1] = z;
        x = y;
    }
    let z = odd_along(hi[last], x, x);
    out[2 * last] = x;
    out[2 * last + 1] = z;
}

// All rows of a pair of bands, n by n each.
#[tactic(auto, using(whole::specs::laws::Tab::row_in))]
pub fn rows(lo: &[i32], hi: &[i32], out: &mut [i32], n: usize)
    requires { (1 ≤ n) × (n ≤ 64) × (length lo.now ≡ n * n) × (length hi.now ≡ n * n) × (length out.old ≡ n * (2 * n)) × AllNear 268435456 lo.now × AllNear 268435456 hi.now }
    ensures { out.new ≡ grid n (2 * n) (row_at n (at lo.now) (at hi.now)) }
{
    for r in 0..n {
        let a = r * n;
        let b = a + n;
        let p = r * (2 * n);
        let q = p + 2 * n;
        line(&lo[a..b], &hi[a..b], &mut out[p..q]);
    }
}
