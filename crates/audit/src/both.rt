// The plain decoder and the product side by side: one component call, one tile. No section of document 01 is made true here; the theorem is `plain_same`, and
// this is what an auditor runs.
ghost use Rattle.std.specs.Prelude.{◌≡◌};
ghost use Rattle.tile_back.specs.Word.{Plane};

use bands::Quant;
use plain::PlainWord;

// The component calls: number, bits and list.
pub fn component_same(mode: u8, code: &[u8], ours: &mut [i32], plain: &mut [i32]) -> bool
    ensures { Unit }
{
    ours.fill(7);
    plain.fill(7);
    let r = code::read::read_component(mode, code, ours);
    let t = plain_code::read_component(mode, code, plain);
    if code::read::reading_number(r) != plain_code::reading_number(t) {
        return false;
    }
    if code::read::reading_bits(r) != code::read::reading_bits(t) {
        return false;
    }
    *ours == *plain
}

// Where two answers differ.
const DIFFER: u8 = 255;

// A component's number and samples: 0 where both are the same, its number where both refuse it with that, else DIFFER.
fn plane(
    mode: u8,
    q: Quant,
    code: &[u8],
    ours: &mut [i32],
    plain: &mut [i32],
    tmp: &mut [i32],
) -> u8
    ensures { result ≡ 0 → Plane ours.new × Plane plain.new }
{
    if ours.len() != 4096 {
        return 2;
    }
    if plain.len() != 4096 {
        return 2;
    }
    if tmp.len() != 4096 {
        return 2;
    }
    if !bands::is_good(q) {
        return 7;
    }
    let n = wire::number_of(tile_back::component_fault(mode, q, code, ours));
    let m = wire::number_of(plain::samples(mode, q, code, plain, tmp));
    if n != m {
        return DIFFER;
    }
    if n != 0 {
        return n;
    }
    tile_back::samples(mode, q, code, ours, tmp);
    if *ours == *plain {
        return 0;
    }
    DIFFER
}

// The pixels of row y, on a glass of either size.
fn row_same<W: PlainWord>(
    ys: &[i32],
    cbs: &[i32],
    crs: &[i32],
    y: usize,
    row: &mut [W],
    words: &[W],
) -> bool
    requires { Plane ys.now × Plane cbs.now × Plane crs.now }
{
    if row.len() != 64 {
        return false;
    }
    if words.len() != 4096 {
        return false;
    }
    if 64 <= y {
        return false;
    }
    tile_back::words_row(ys, cbs, crs, y, row);
    let a = 64 * y;
    row[..] == words[a..a + 64]
}

// The pixels of six planes, three of the product's and three of the plain decoder's.
fn pixels_same<W: PlainWord>(
    ys: &[i32],
    cbs: &[i32],
    crs: &[i32],
    py: &[i32],
    pb: &[i32],
    pr: &[i32],
) -> bool
    requires { Plane ys.now × Plane cbs.now × Plane crs.now × Plane py.now × Plane pb.now × Plane pr.now }
{
    let black = W::of(0, 0, 0);
    let mut row = [black; 64];
    let mut words = [black; 4096];
    plain::pixels(py, pb, pr, &mut words);
    for y in 0..64 {
        if !row_same(ys, cbs, crs, y, &mut row, &words) {
            return false;
        }
    }
    true
}

// On both.
fn both_same(ys: &[i32], cbs: &[i32], crs: &[i32], py: &[i32], pb: &[i32], pr: &[i32]) -> bool
    requires { Plane ys.now × Plane cbs.now × Plane crs.now × Plane py.now × Plane pb.now × Plane pr.now }
{
    pixels_same::<u16>(ys, cbs, crs, py, pb, pr) && pixels_same::<u32>(ys, cbs, crs, py, pb, pr)
}

// One tile: 0 where samples and pixels are the same, these on either glass, the first refusal's number where both refuse with that, else DIFFER.
pub fn tile_same(mode: u8, y: Quant, cb: Quant, cr: Quant, a: &[u8], b: &[u8], c: &[u8]) -> u8
    ensures { Unit }
{
    let mut ys = [0i32; 4096];
    let mut cbs = [0i32; 4096];
    let mut crs = [0i32; 4096];
    let mut py = [0i32; 4096];
    let mut pb = [0i32; 4096];
    let mut pr = [0i32; 4096];
    let mut tmp = [0i32; 4096];
    let n = plane(mode, y, a, &mut ys, &mut py, &mut tmp);
    if n != 0 {
        return n;
    }
    let m = plane(mode, cb, b, &mut cbs, &mut pb, &mut tmp);
    if m != 0 {
        return m;
    }
    let k = plane(mode, cr, c, &mut crs, &mut pr, &mut tmp);
    if k != 0 {
        return k;
    }
    if both_same(&ys, &cbs, &crs, &py, &pb, &pr) {
        return 0;
    }
    DIFFER
}
