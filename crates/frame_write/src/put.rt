// The frame writer's writing pass (document 01, last paragraph of "Colour"): "all tiles row by row", and "while it writes, lengths are filled
// in afterwards inside the output". The sizing pass has refused before; here everything fits.
ghost use Rattle.std.specs.Prelude.{◌≡◌, ◌+◌, ◌*◌, ◌≤◌, ◌<◌, length};
ghost use Rattle.quants.specs.Quants.{chroma_index};
ghost use Rattle.wire.specs.Le.{patch, written};
ghost use Rattle.frame_layout.specs.Bytes.{tile_len, tile_of, tiles_of};
ghost use Rattle.frame_write.specs.Job.{part_in, tile_in, job_tiles, part_stop, tile_stop, tile_sent, stops_sent, frame_sent, JobReady, JobSends};

use crate::size::Job;

// Component c of tile k, written at a place. The answer is the place past it.
fn put_part(
    out: &mut [u8],
    at: usize,
    list: &mut [i32],
    scratch: &mut [i32],
    pixels: &[u8],
    job: Job,
    k: usize,
    c: usize,
) -> usize
    requires { JobReady job pixels.now list.old scratch.old × (k < job_tiles job) × (0 ≡ part_stop job pixels.now k c) × (at + length (part_in job pixels.now k c) ≤ length out.old) }
    ensures { (out.new ≡ patch out.old at (part_in job pixels.now k c)) × (result ≡ at + length (part_in job pixels.now k c)) }
{
    crate::size::load_part(job, pixels, k, c, list, scratch);
    code_write::call::put_component(job.mode, list, out, at)
}

// Tile k, written at a place: its head with lengths 0, the three codes, then the lengths. The answer is the place past it.
fn put_tile(
    out: &mut [u8],
    at: usize,
    list: &mut [i32],
    scratch: &mut [i32],
    pixels: &[u8],
    job: Job,
    k: usize,
) -> usize
    requires { JobReady job pixels.now list.old scratch.old × (k < job_tiles job) × (0 ≡ tile_stop job pixels.now k) × (at + tile_len (tile_in job pixels.now k) ≤ length out.old) }
    ensures { (out.new ≡ patch out.old at (tile_of (tile_in job pixels.now k))) × (result ≡ at + tile_len (tile_in job pixels.now k)) }
{
    let cols = frame_pieces::cols_of(job.width);
    let chroma = quants::chroma_index(job.quants);
    frame_pieces::put_head(out, at, chroma, k % cols, k / cols);
    let a = at + 19;
    let b = put_part(out, a, list, scratch, pixels, job, k, 0);
    let c = put_part(out, b, list, scratch, pixels, job, k, 1);
    let e = put_part(out, c, list, scratch, pixels, job, k, 2);
    frame_pieces::fill_tile(out, at, e - at, b - a, c - b, e - c);
    e
}

// The n tiles that are sent, from a place on. The answer is the place past them.
fn put_tiles(
    out: &mut [u8],
    from: usize,
    list: &mut [i32],
    scratch: &mut [i32],
    pixels: &[u8],
    picks: &[u32],
    job: Job,
    n: usize,
) -> usize
    requires { JobReady job pixels.now list.old scratch.old × JobSends job picks.now n × (0 ≡ stops_sent job pixels.now picks.now n) × (from + length (tiles_of (tile_sent job pixels.now picks.now) n 0) ≤ length out.old) }
    ensures { (out.new ≡ patch out.old from (tiles_of (tile_sent job pixels.now picks.now) n 0)) × (result ≡ from + length (tiles_of (tile_sent job pixels.now picks.now) n 0)) }
{
    let mut at = from;
    for i in 0..n {
        let k = crate::size::number_at(picks, i);
        at = put_tile(out, at, list, scratch, pixels, job, k);
    }
    at
}

// The whole frame, where there is room for it: the front with the tileset's lengths 0, the tiles, the end, then these lengths.
pub fn put_frame(
    out: &mut [u8],
    list: &mut [i32],
    scratch: &mut [i32],
    pixels: &[u8],
    picks: &[u32],
    job: Job,
    n: usize,
) -> usize
    requires { JobReady job pixels.now list.old scratch.old × JobSends job picks.now n × (0 ≡ stops_sent job pixels.now picks.now n) × (72 + 5 * chroma_index job.quants + length (tiles_of (tile_sent job pixels.now picks.now) n 0) ≤ length out.old) }
    ensures { (out.new ≡ written (frame_sent job pixels.now picks.now n) out.old) × (result ≡ length (frame_sent job pixels.now picks.now n)) }
{
    let from = 64 + 5 * quants::chroma_index(job.quants) as usize;
    frame_pieces::put_front(
        out,
        job.quants,
        job.index,
        job.width,
        job.height,
        job.mode as usize,
        n,
    );
    let e = put_tiles(out, from, list, scratch, pixels, picks, job, n);
    frame_pieces::close_frame(out, from, e);
    e + 8
}
