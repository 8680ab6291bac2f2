// One tile of document 01's frames, read: a component judged ("code, then LL3 sums and scaling"), its code to its coefficients and its 64 x 64
// samples, and three lists of samples to the picture's words, of 16 or of 32 bits. Judging (the check pass) sums, scales and draws nothing; decoding (the drawing
// pass) judges and answers nothing (document 02, request Eight).
#![tactic(auto)]

ghost use Rattle.std.specs.Prelude.{◌≡◌, ◌+◌, ◌*◌, ◌<◌, length, map};
ghost use Rattle.bands.specs.Bands.{QuantGood};
ghost use Rattle.wire.specs.Refusal.{number_of};
ghost use Rattle.tile_back.specs.Component.{component_fault, coefficients_of, samples_of, Checked};
ghost use Rattle.tile_back.specs.Word.{Plane, word_at, WordsRow};

use bands::Quant;
use code::read::Reading;
use colour::GlassWord;
use wire::Refusal;

// The check pass: a component's fault. The work list is left as the component reader leaves it.
pub fn component_fault(mode: u8, q: Quant, code: &[u8], work: &mut [i32]) -> Result<(), Refusal>
    requires { (length work.old ≡ 4096) × QuantGood q.v }
    ensures { Checked mode q.v code.now work.old work.new (number_of result) }
{
    match code::read::read_component(mode, code, work) {
        Reading::Done(_) => bands::judge(work, q),
        Reading::Tail(_) => Err(Refusal::Tail),
        Reading::Refused(refusal) => Err(refusal),
    }
}

// The coefficients of a component that has been checked.
pub fn coefficients(mode: u8, q: Quant, code: &[u8], work: &mut [i32])
    requires { (length work.old ≡ 4096) × QuantGood q.v × (0 ≡ component_fault mode q.v code.now) }
    ensures { work.new ≡ coefficients_of mode q.v code.now }
{
    code::read::read_checked(mode, code, work);
    bands::sum_up(work);
    bands::scale_up(work, q);
}

// The samples of a component that has been checked.
pub fn samples(mode: u8, q: Quant, code: &[u8], work: &mut [i32], tmp: &mut [i32])
    requires { (length work.old ≡ 4096) × (length tmp.old ≡ 4096) × QuantGood q.v × (0 ≡ component_fault mode q.v code.now) }
    ensures { work.new ≡ samples_of mode q.v code.now }
{
    coefficients(mode, q, code, work);
    wave_back::tile::tile_back(work, tmp);
}

// The word at place i of a tile, on a glass of either size.
pub fn pixel<W: GlassWord>(ys: &[i32], cbs: &[i32], crs: &[i32], i: usize) -> W
    requires { (i < 4096) × Plane ys.now × Plane cbs.now × Plane crs.now }
    ensures { W.number result ≡ word_at W.GLASS ys.now cbs.now crs.now i }
{
    colour::word(ys[i], cbs[i], crs[i])
}

// The 64 words of row y of a tile, in a loop of their own, so that they are made once and side by side.
pub fn words_row<W: GlassWord>(ys: &[i32], cbs: &[i32], crs: &[i32], y: usize, row: &mut [W])
    requires { (y < 64) × (length row.old ≡ 64) × Plane ys.now × Plane cbs.now × Plane crs.now }
    ensures { WordsRow W.GLASS ys.now cbs.now crs.now y (map W.number row.new) }
{
    for x in 0..64 {
        row[x] = pixel(ys, cbs, crs, 64 * y + x);
    }
}
