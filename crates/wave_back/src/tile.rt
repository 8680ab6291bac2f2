// The way back of document 01's "Bands and the wavelet" (001, 3.1.8.2.4): "Rows first (LL with HL, LH with HH), then columns", three levels,
// each on the end of the list of 4,096 numbers.
ghost use Rattle.std.specs.Prelude.{◌≡◌, ◌+◌, ◌-◌, ◌*◌, min, ◌<◌, ◌≤◌, ◌++◌, length};
ghost use Rattle.whole.specs.Tab.{at, grid};
ghost use Rattle.whole.specs.laws.Tab.{AllNear};
ghost use Rattle.wave_back.specs.laws.Column.{Turn, col_at};
ghost use Rattle.wave_back.specs.laws.Level.{level_from};
ghost use Rattle.wave_back.specs.Tile.{low_at, high_at, level, tile_back};

// Rows 2r and 2r + 1 of the column pass, from the source alone: a is the row of H before r, z the next even place, y the one of H before z.
fn pair(src: &[i32], dst: &mut [i32], n: usize, w: usize, r: usize, a: usize, z: usize, y: usize)
    requires n_bound { (n ≤ 32) × (w ≤ 64) × (length src.now ≡ 2 * n * w) × (length dst.old ≡ 2 * n * w) × AllNear 268435456 src.now }
    requires r_lt_n { (r < n) × (a ≡ r - 1) × (z ≡ min (r + 1) (n - 1)) × (y ≡ z - 1) }
    ensures { Turn n w src.now r w dst.old dst.new }
{
    let l = r * w;
    let g = (n + a) * w;
    let h = (n + r) * w;
    let m = z * w;
    let p = (n + y) * w;
    let q = (n + z) * w;
    let e = 2 * r * w;
    let o = (2 * r + 1) * w;
    for c in 0..w {
        let s = crate::line::even(src[l + c], src[g + c], src[h + c]);
        let t = crate::line::even(src[m + c], src[p + c], src[q + c]);
        let v = crate::line::odd_down(src[h + c], s, t);
        dst[e + c] = s;
        dst[o + c] = v;
    }
}

// The column pass, by whole rows; the width w comes as a parameter so that the loop of a row vectorises.
// The first and the last pair stand by themselves: one loop, with the neighbours worked out in `pair`, takes a seventh more instructions.
fn columns(src: &[i32], dst: &mut [i32], n: usize, w: usize)
    requires { (2 ≤ n) × (n ≤ 32) × (length src.now ≡ 2 * n * (2 * n)) × (length dst.old ≡ 2 * n * (2 * n)) × AllNear 268435456 src.now × (w ≡ 2 * n) }
    ensures { dst.new ≡ grid (2 * n) (2 * n) (col_at n (at src.now)) }
{
    pair(src, dst, n, w, 0, 0, 1, 0);
    let last = n - 1;
    for r in 1..last {
        pair(src, dst, n, w, r, r - 1, r + 1, r);
    }
    pair(src, dst, n, w, last, last - 1, last, last - 1);
}

// "LL with HL, LH with HH": the low rows into the upper half of tmp, the high rows into the lower.
pub fn row_pass(region: &[i32], tmp: &mut [i32], n: usize)
    requires { (1 ≤ n) × (n ≤ 32) × (length region.now ≡ 4 * (n * n)) × (length tmp.old ≡ 4 * (n * n)) × AllNear 268435456 region.now }
    ensures { tmp.new ≡ grid n (2 * n) (low_at n (at region.now)) ++ grid n (2 * n) (high_at n (at region.now)) }
{
    let a = 0;
    let b = n * n;
    let c = 2 * b;
    let d = 3 * b;
    let e = 4 * b;
    crate::line::rows(&region[d..e], &region[a..b], &mut tmp[a..c], n);
    crate::line::rows(&region[b..c], &region[c..d], &mut tmp[c..e], n);
}

// One level.
fn level_back(region: &mut [i32], tmp: &mut [i32], n: usize, w: usize)
    requires { (2 ≤ n) × (n ≤ 32) × (length region.old ≡ 4 * (n * n)) × (length tmp.old ≡ 4 * (n * n)) × AllNear 67108863 region.old × (w ≡ 2 * n) }
    ensures { region.new ≡ level n region.old }
{
    row_pass(region, tmp, n);
    columns(tmp, region, n, w);
}

// One level on the end of the list, from place a on.
pub fn level_from(work: &mut [i32], tmp: &mut [i32], a: usize, n: usize, w: usize)
    requires { (2 ≤ n) × (n ≤ 32) × (length work.old ≡ a + 4 * (n * n)) × (length work.old ≡ 4096) × (length tmp.old ≡ 4096) × AllNear 67108863 work.old × (w ≡ 2 * n) }
    ensures { work.new ≡ level_from a n work.old }
{
    let z = 0;
    let e = work.len();
    let k = 4 * (n * n);
    level_back(&mut work[a..e], &mut tmp[z..k], n, w);
}

// A component's tile, back from its 4,096 scaled numbers. The way forth has the same three calls the other way round: another order and another level.
pub fn tile_back(work: &mut [i32], tmp: &mut [i32])
    requires { (length work.old ≡ 4096) × (length tmp.old ≡ 4096) × AllNear 32767 work.old }
    ensures { work.new ≡ tile_back work.old }
{
    level_from(work, tmp, 3840, 8, 16);
    level_from(work, tmp, 3072, 16, 32);
    level_from(work, tmp, 0, 32, 64);
}
