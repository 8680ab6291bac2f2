// What the frame writer of document 01 refuses, in order ("Frame writer's refusals in order: size or mode 5, quantiser 7, pixel or work list length 2, then per component
// in order 9 .. then 6, then 13."), and the frame measured and then written, whatever room there is. The call itself is `frame_send`'s.
ghost use Rattle.std.specs.Prelude.{◌≡◌, length};
ghost use Rattle.wire.specs.Refusal.{number_of};
ghost use Rattle.wire.specs.Wrote.{Wrote};
ghost use Rattle.frame_write.specs.Sets.{good_sets, arg_fault_over};
ghost use Rattle.frame_write.specs.Job.{frame_sent, fault_sent, JobReady, JobSends};

use crate::size::Job;
use quants::Quants;
use wire::Refusal;

// Are luma's quantisers good, and chroma's?
fn is_good(q: Quants) -> bool
    ensures { result ≡ good_sets q }
{
    bands::is_good(q.luma) && bands::is_good(q.chroma)
}

// What is judged of the arguments alone: 5, 7, 2. By the lengths of the pixels and of the two work lists.
pub fn arg_judge(job: Job, pixels: usize, list: usize, scratch: usize) -> Result<(), Refusal>
    ensures { number_of result ≡ arg_fault_over job.width job.height job.mode job.quants pixels list scratch }
{
    if !session::is_size(job.width, job.height) {
        return Err(Refusal::Field);
    }
    if !wire::is_mode(job.mode as usize) {
        return Err(Refusal::Field);
    }
    if !is_good(job.quants) {
        return Err(Refusal::Quant);
    }
    if !frame_pieces::is_pixels(job.width, job.height, pixels) {
        return Err(Refusal::Buffer);
    }
    if list != 4096 {
        return Err(Refusal::Buffer);
    }
    if scratch != 4096 {
        return Err(Refusal::Buffer);
    }
    Ok(())
}

// What is left to refuse once the arguments and the list are good: 9, 6, 13; then the frame of the n tiles is written.
pub fn send(
    out: &mut [u8],
    list: &mut [i32],
    scratch: &mut [i32],
    pixels: &[u8],
    picks: &[u32],
    job: Job,
    n: usize,
) -> Result<usize, Refusal>
    requires { JobReady job pixels.now list.old scratch.old × JobSends job picks.now n }
    ensures { Wrote (fault_sent job pixels.now picks.now n (length out.old)) (frame_sent job pixels.now picks.now n) out.old out.new result }
{
    let size = crate::size::tiles_size(job, pixels, picks, n, list, scratch)?;
    let around = 72 + 5 * quants::chroma_index(job.quants) as usize;
    if out.len() < around + size {
        return Err(Refusal::Room);
    }
    Ok(crate::put::put_frame(out, list, scratch, pixels, picks, job, n))
}
