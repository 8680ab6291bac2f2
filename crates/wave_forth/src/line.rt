// One line of the way forth, of document 01's "Bands and the wavelet" (001, 3.1.8.1.4): "H[n] = floor((x[2n+1] - floor((x[2n] + x[2n+2])/2))/2)" and
// "L[n] = x[2n] + floor((H[n-1] + H[n])/2)"; and the row pass into a pair of bands.
ghost use Rattle.std.specs.Prelude.{◌≡◌, ◌+◌, ◌*◌, ◌≤◌, length};
ghost use Rattle.whole.specs.laws.Near.{Near};
ghost use Rattle.whole.specs.laws.Tab.{AllNear};
ghost use Rattle.wave_forth.specs.Halves.{high_z, low_z};
ghost use Rattle.wave_forth.specs.laws.Row.{Apart, from, Split, Bands};

// H[n]: o is x[2n+1], e is x[2n], f is x[2n+2].
pub fn high(o: i32, e: i32, f: i32) -> i32
    requires { Near 268435456 o × Near 268435456 e × Near 268435456 f }
    ensures { result ≡ high_z o e f }
{
    (o - ((e + f) >> 1)) >> 1
}

// L[n]: e is x[2n], g is H[n-1], h is H[n].
pub fn low(e: i32, g: i32, h: i32) -> i32
    requires { Near 268435456 e × Near 268435456 g × Near 268435456 h }
    ensures { result ≡ low_z e g h }
{
    e + ((g + h) >> 1)
}

// One row of 2n numbers from place s on, into its low half at l and its high half at h. One loop that carries the H before.
fn row(src: &[i32], dst: &mut [i32], n: usize, s: usize, l: usize, h: usize)
    requires le_n { (2 ≤ n) × (s + 2 * n ≤ length src.now) × (length src.now ≤ 4096) × (l + n ≤ length dst.old) × (h + n ≤ length dst.old) × (length dst.old ≤ 4096) }
    requires apart { Apart n l h × AllNear 268435456 src.now }
    ensures { Split n (from src.now s) l h n dst.old dst.new }
{
    let last = n - 1;
    let mut g = high(src[s + 1], src[s], src[s + 2]);
    for j in 0..last {
        let v = high(src[s + (2 * j + 1)], src[s + 2 * j], src[s + (2 * j + 2)]);
        let u = low(src[s + 2 * j], g, v);
        dst[h + j] = v;
        dst[l + j] = u;
        g = v;
    }
    let v = high(
        src[s + (2 * last + 1)],
        src[s + 2 * last],
        src[s + 2 * last],
    );
    let u = low(src[s + 2 * last], g, v);
    dst[h + last] = v;
    dst[l + last] = u;
}

// All rows of one half of the column pass, from place s on, into the band of their low halves at l and of their high halves at h.
#[tactic(auto, using(whole::specs::laws::Tab::row_in))]
pub fn rows(src: &[i32], dst: &mut [i32], n: usize, w: usize, s: usize, l: usize, h: usize)
    requires le_n { (2 ≤ n) × (n ≤ 32) × (w ≡ 2 * n) × (s + n * w ≤ length src.now) × (length src.now ≤ 4096) × (l + n * n ≤ length dst.old) × (h + n * n ≤ length dst.old) × (length dst.old ≤ 4096) }
    requires apart { Apart (n * n) l h × AllNear 268435456 src.now }
    ensures { Bands n w s src.now l h n dst.old dst.new }
{
    for r in 0..n {
        row(src, dst, n, s + r * w, l + r * n, h + r * n);
    }
}
