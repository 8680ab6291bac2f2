// The way forth of document 01's "Bands and the wavelet" (001, 3.1.8.1.4): "columns first", then rows, three levels, each on the end of the
// list of 4,096 numbers.
ghost use Rattle.std.specs.Prelude.{◌≡◌, ◌++◌, ◌+◌, ◌-◌, ◌*◌, min, ◌<◌, ◌≤◌, length};
ghost use Rattle.whole.specs.Tab.{at, grid};
ghost use Rattle.whole.specs.laws.Tab.{AllNear};
ghost use Rattle.wave_forth.specs.Forth.{low_row, high_row, level_forth, forth_from, tile_forth};
ghost use Rattle.wave_forth.specs.laws.Column.{Turn};

// Rows r and n + r of the column pass, L and H, from the source alone: a is the row of H before r, b and z are the even places after a and r.
fn pair(src: &[i32], dst: &mut [i32], n: usize, w: usize, r: usize, a: usize, b: usize, z: usize)
    requires n_bound { (n ≤ 32) × (w ≤ 64) × (length src.now ≡ 2 * n * w) × (length dst.old ≡ 2 * n * w) × AllNear 268435456 src.now }
    requires r_lt_n { (r < n) × (a ≡ r - 1) × (b ≡ min (a + 1) (n - 1)) × (z ≡ min (r + 1) (n - 1)) }
    ensures { Turn n w src.now r w dst.old dst.new }
{
    let e = 2 * r * w;
    let o = (2 * r + 1) * w;
    let f = 2 * z * w;
    let i = 2 * a * w;
    let k = (2 * a + 1) * w;
    let m = 2 * b * w;
    let l = r * w;
    let h = (n + r) * w;
    for c in 0..w {
        let g = crate::line::high(src[k + c], src[i + c], src[m + c]);
        let t = crate::line::high(src[o + c], src[e + c], src[f + c]);
        let v = crate::line::low(src[e + c], g, t);
        dst[l + c] = v;
        dst[h + c] = t;
    }
}

// The column pass, by whole rows; the width w comes as a parameter so that the loop of a row vectorises.
// The first and the last pair stand by themselves: one loop, with the neighbours worked out in `pair`, takes a seventh more instructions.
fn columns(src: &[i32], dst: &mut [i32], n: usize, w: usize)
    requires { (2 ≤ n) × (n ≤ 32) × (length src.now ≡ 2 * n * (2 * n)) × (length dst.old ≡ 2 * n * (2 * n)) × AllNear 268435456 src.now × (w ≡ 2 * n) }
    ensures { dst.new ≡ grid n (2 * n) (low_row n (at src.now)) ++ grid n (2 * n) (high_row n (at src.now)) }
{
    pair(src, dst, n, w, 0, 0, 1, 1);
    let last = n - 1;
    for r in 1..last {
        pair(src, dst, n, w, r, r - 1, r, r + 1);
    }
    pair(src, dst, n, w, last, last - 1, last, last);
}

// One level: the low rows give LL and HL, the high rows LH and HH.
fn level_forth(region: &mut [i32], tmp: &mut [i32], n: usize, w: usize)
    requires { (2 ≤ n) × (n ≤ 32) × (length region.old ≡ 4 * (n * n)) × (length tmp.old ≡ 4 * (n * n)) × AllNear 134217728 region.old × (w ≡ 2 * n) }
    ensures { region.new ≡ level_forth n region.old }
{
    let q = n * n;
    columns(region, tmp, n, w);
    crate::line::rows(tmp, region, n, w, 0, 3 * q, 0);
    crate::line::rows(tmp, region, n, w, n * w, q, 2 * q);
}

// One level on the end of the list, from place a on: the LL of the level before.
fn level_from(work: &mut [i32], tmp: &mut [i32], a: usize, n: usize, w: usize)
    requires { (2 ≤ n) × (n ≤ 32) × (length work.old ≡ a + 4 * (n * n)) × (length work.old ≡ 4096) × (length tmp.old ≡ 4096) × AllNear 134217728 work.old × (w ≡ 2 * n) }
    ensures { work.new ≡ forth_from a n work.old }
{
    let z = 0;
    let e = work.len();
    let k = 4 * (n * n);
    level_forth(&mut work[a..e], &mut tmp[z..k], n, w);
}

// A component's tile of 64 rows of 64 numbers, forth to its bands. The way back has the same three calls the other way round: another order and another level.
pub fn tile_forth(work: &mut [i32], tmp: &mut [i32])
    requires { (length work.old ≡ 4096) × (length tmp.old ≡ 4096) × AllNear 32767 work.old }
    ensures { work.new ≡ tile_forth work.old }
{
    level_from(work, tmp, 0, 32, 64);
    level_from(work, tmp, 3072, 16, 32);
    level_from(work, tmp, 3840, 8, 16);
}
