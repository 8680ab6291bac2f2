// A tile on the frame writer's way (document 01, "Colour": "The frame writer takes three bytes a pixel (R, G, B), all tiles row by row, edge tiles
// filled by repeating the last column and row"): one component's samples, the wavelet forth, rounding and LL3's differences.
#![tactic(auto)]

ghost use Rattle.std.specs.Prelude.{◌≡◌, ◌+◌, ◌-◌, ◌*◌, ◌<◌, ◌≤◌, length};
ghost use Rattle.whole.specs.laws.Near.{Near};
ghost use Rattle.whole.specs.Tab.{table};
ghost use Rattle.whole.specs.laws.Tab.{AllNear};
ghost use Rattle.bands.specs.Bands.{QuantGood};
ghost use Rattle.tile_forth.specs.TileForth.{component_of, edge, bytes_at, sample_at, rounded_of};
ghost use Rattle.tile_forth.specs.laws.TileForth.{Loaded};

use bands::Quant;

// Component c of a pixel: 0 is Y, 1 is Cb, 2 is Cr.
fn component(c: usize, r: u8, g: u8, b: u8) -> i32
    ensures { (result ≡ component_of c r g b) × Near 16384 result }
{
    if c == 0 {
        return colour::luma(r, g, b);
    }
    if c == 1 {
        return colour::cb(r, g, b);
    }
    colour::cr(r, g, b)
}

// The column or row that is taken for k: the last one past the end.
fn last_or(n: usize, k: usize) -> usize
    requires { 1 ≤ n }
    ensures { result ≡ edge n k }
{
    if k < n {
        return k;
    }
    n - 1
}

// The same for column k of a tile whose last one is `last`. Whether that lies in the picture is the same for all of a row, and mostly it does:
// so the machine asks it once.
fn column(w: usize, last: usize, k: usize) -> usize
    requires { (1 ≤ w) × (k ≤ last) }
    ensures { result ≡ edge w k }
{
    if last < w {
        return k;
    }
    last_or(w, k)
}

// Component c of the pixel whose bytes start at place p.
fn bytes_at(pixels: &[u8], c: usize, p: usize) -> i32
    requires { p + 3 ≤ length pixels.now }
    ensures { (result ≡ bytes_at pixels.now c p) × Near 16384 result }
{
    component(c, pixels[p], pixels[p + 1], pixels[p + 2])
}

// Row j of component c of the tile (tx, ty), behind the rows before it: the row's place in the picture is worked out once.
fn load_row(
    pixels: &[u8],
    w: usize,
    h: usize,
    tx: usize,
    ty: usize,
    c: usize,
    j: usize,
    work: &mut [i32],
)
    requires le_w { (1 ≤ w) × (w ≤ 4096) × (1 ≤ h) × (h ≤ 2048) × (3 * (w * h) ≡ length pixels.now) × (tx < 64) × (ty < 64) }
    requires j_bound { (j < 64) × Loaded (sample_at pixels.now w h tx ty c) (64 * j) work.old }
    ensures { Loaded (sample_at pixels.now w h tx ty c) (64 * (j + 1)) work.new }
{
    let from = 3 * (last_or(h, 64 * ty + j) * w);
    for x in 0..64 {
        work[64 * j + x] = bytes_at(pixels, c, from + 3 * column(w, 64 * tx + 63, 64 * tx + x));
    }
}

// The samples of component c of the tile (tx, ty).
fn load(pixels: &[u8], w: usize, h: usize, tx: usize, ty: usize, c: usize, work: &mut [i32])
    requires { (1 ≤ w) × (w ≤ 4096) × (1 ≤ h) × (h ≤ 2048) × (3 * (w * h) ≡ length pixels.now) × (tx < 64) × (ty < 64) × (length work.old ≡ 4096) }
    ensures { (work.new ≡ table 4096 (sample_at pixels.now w h tx ty c)) × AllNear 16384 work.new }
{
    for j in 0..64 {
        load_row(pixels, w, h, tx, ty, c, j, work);
    }
}

// The list that the code of component c of the tile (tx, ty) is of.
pub fn load_component(
    pixels: &[u8],
    w: usize,
    h: usize,
    q: Quant,
    tx: usize,
    ty: usize,
    c: usize,
    work: &mut [i32],
    tmp: &mut [i32],
)
    requires le_w { (1 ≤ w) × (w ≤ 4096) × (1 ≤ h) × (h ≤ 2048) × (3 * (w * h) ≡ length pixels.now) × (64 * tx < w) × (64 * ty < h) }
    requires work_len { (length work.old ≡ 4096) × (length tmp.old ≡ 4096) × QuantGood q.v }
    ensures { work.new ≡ rounded_of pixels.now w h q.v tx ty c }
{
    load(pixels, w, h, tx, ty, c, work);
    wave_forth::tile::tile_forth(work, tmp);
    bands::round_all(work, q);
}
