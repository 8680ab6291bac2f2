// The frame writer of document 01 (last paragraph of "Colour", "Numbers the fitter sees", and what is left of output and work lists). A frame is measured before a byte
// of the output is touched (`frame_write`), but where the output has room for the largest frame of so many tiles: no picture is refused with 9 or 6 (`bounds`), so
// it is written at once, and each tile is made once.
#![tactic(auto)]

ghost use Rattle.std.specs.Prelude.{◌≡◌, ◌≤◌, leb, length};
ghost use Rattle.wire.specs.Wrote.{Wrote};
ghost use Rattle.frame_write.specs.FrameWrite.{FrameWritten};
ghost use Rattle.frame_write.specs.Sets.{FrameWrittenOver};
ghost use Rattle.frame_write.specs.Job.{frame_sent, fault_sent, JobReady, JobSends};
ghost use Rattle.frame_send.specs.Room.{largest};

use bands::Quant;
use frame_write::size::Job;
use quants::Quants;
use wire::Refusal;

// Has the output room for any frame of n tiles?
fn is_roomy(n: usize, room: usize) -> bool
    requires { n ≤ 2048 }
    ensures { result ≡ leb (largest n) room }
{
    77 + 196624 * n <= room
}

// What is left to refuse once the arguments and the list are good: 9, 6, 13; then the frame of the n tiles is written.
pub fn send(
    out: &mut [u8],
    list: &mut [i32],
    scratch: &mut [i32],
    pixels: &[u8],
    picks: &[u32],
    job: Job,
    n: usize,
) -> Result<usize, Refusal>
    requires { JobReady job pixels.now list.old scratch.old × JobSends job picks.now n }
    ensures { Wrote (fault_sent job pixels.now picks.now n (length out.old)) (frame_sent job pixels.now picks.now n) out.old out.new result }
{
    if is_roomy(n, out.len()) {
        return Ok(frame_write::put::put_frame(out, list, scratch, pixels, picks, job, n));
    }
    frame_write::call::send(out, list, scratch, pixels, picks, job, n)
}

// The frame writer, for any input: three bytes a pixel, ten quantisers for luma and ten for chroma, two work lists.
pub fn write_frame_sets(
    width: usize,
    height: usize,
    mode: u8,
    q: Quants,
    index: u32,
    pixels: &[u8],
    list: &mut [i32],
    scratch: &mut [i32],
    out: &mut [u8],
) -> Result<usize, Refusal>
    ensures { FrameWrittenOver width height mode q index pixels.now list.old list.new scratch.old scratch.new out.old out.new result }
{
    let job = Job {
        width,
        height,
        mode,
        index: index as usize,
        quants: q,
    };
    frame_write::call::arg_judge(job, pixels.len(), list.len(), scratch.len())?;
    let n = frame_pieces::tiles_no(width, height);
    let r = send(out, list, scratch, pixels, &[], job, n);
    whole::clear(list);
    whole::clear(scratch);
    r
}

// The same with one quantiser set of ten values, which the call for C has (`FrameWritten`).
pub fn write_frame(
    width: usize,
    height: usize,
    mode: u8,
    q: Quant,
    index: u32,
    pixels: &[u8],
    list: &mut [i32],
    scratch: &mut [i32],
    out: &mut [u8],
) -> Result<usize, Refusal>
    ensures { FrameWritten width height mode q.v index pixels.now list.old list.new scratch.old scratch.new out.old out.new result }
{
    let both = Quants { luma: q, chroma: q };
    write_frame_sets(width, height, mode, both, index, pixels, list, scratch, out)
}
