// The frame writer's sizing pass (document 01, last paragraph of "Colour"): "per component in order 9 (as the reader would judge) then 6",
// and the size of all tiles, before a byte of the output is touched. One work list serves a component at a time.
ghost use Rattle.std.specs.Prelude.{◌≡◌, ◌<◌, length};
ghost use Rattle.frame_layout.specs.Bytes.{tile_len, tiles_of};
ghost use Rattle.code_write.specs.Write.{Measures};
ghost use Rattle.frame_write.specs.Job.{list_in, part_in, tile_in, job_tiles, part_stop, tile_stop, sent_at, tile_sent, stops_sent, JobReady, JobSends};

use quants::Quants;
use wire::Refusal;

// What the writer is asked, beside the pixels: size, mode, the frame's index, and the quantisers. Pixels, list and work lists are lent beside it: in a struct
// that borrows them a contract would name each as it was at entry, behind the struct, and be no plainer.
#[derive(Clone, Copy)]
pub struct Job {
    pub width: usize,
    pub height: usize,
    pub mode: u8,
    pub index: usize,
    pub quants: Quants,
}

// The list of component c of tile k.
pub fn load_part(job: Job, pixels: &[u8], k: usize, c: usize, list: &mut [i32], scratch: &mut [i32])
    requires { JobReady job pixels.now list.old scratch.old × (k < job_tiles job) }
    ensures { list.new ≡ list_in job pixels.now k c }
{
    let q = quants::quant_for(job.quants, c);
    let cols = frame_pieces::cols_of(job.width);
    tile_forth::load_component(
        pixels,
        job.width,
        job.height,
        q,
        k % cols,
        k / cols,
        c,
        list,
        scratch,
    );
}

// Component c of tile k, judged and sized.
fn part_size(
    job: Job,
    pixels: &[u8],
    k: usize,
    c: usize,
    list: &mut [i32],
    scratch: &mut [i32],
) -> Result<usize, Refusal>
    requires { JobReady job pixels.now list.old scratch.old × (k < job_tiles job) }
    ensures { Measures (part_stop job pixels.now k c) (length (part_in job pixels.now k c)) result }
{
    load_part(job, pixels, k, c, list, scratch);
    bands::judge(list, quants::quant_for(job.quants, c))?;
    code_write::call::measure_component(job.mode, list)
}

// Tile k: the first refusal of Y, Cb, Cr, or its bytes.
fn tile_size(
    job: Job,
    pixels: &[u8],
    k: usize,
    list: &mut [i32],
    scratch: &mut [i32],
) -> Result<usize, Refusal>
    requires { JobReady job pixels.now list.old scratch.old × (k < job_tiles job) }
    ensures { Measures (tile_stop job pixels.now k) (tile_len (tile_in job pixels.now k)) result }
{
    let a = part_size(job, pixels, k, 0, list, scratch)?;
    let b = part_size(job, pixels, k, 1, list, scratch)?;
    let c = part_size(job, pixels, k, 2, list, scratch)?;
    Ok(19 + a + b + c)
}

// The number of the i-th tile that is sent: the one listed there. Past the list's end it is i itself: with no list every tile is sent, row by row.
#[tactic(auto, unfolding(crate::specs::Job::sent_at))]
pub fn number_at(picks: &[u32], i: usize) -> usize
    ensures { result ≡ sent_at picks.now i }
{
    // By place, not by `get`: a 32-bit machine does not tell an `Option` of a reference apart (docs/landings/19-arm.md).
    if i < picks.len() {
        return picks[i] as usize;
    }
    i
}

// The n tiles that are sent: the first refusal, or the bytes of all.
pub fn tiles_size(
    job: Job,
    pixels: &[u8],
    picks: &[u32],
    n: usize,
    list: &mut [i32],
    scratch: &mut [i32],
) -> Result<usize, Refusal>
    requires { JobReady job pixels.now list.old scratch.old × JobSends job picks.now n }
    ensures { Measures (stops_sent job pixels.now picks.now n) (length (tiles_of (tile_sent job pixels.now picks.now) n 0)) result }
{
    let mut total = 0;
    for i in 0..n {
        let k = number_at(picks, i);
        total += tile_size(job, pixels, k, list, scratch)?;
    }
    Ok(total)
}
