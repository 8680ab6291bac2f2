// The short frame's writer (document 02, request Eleven): "The short frame's writer makes this check itself, after its own 5, 7 and 2; then 9, 6 and 13 as
// before, over the listed tiles." It is the frame writer (`frame_send`) over a list of tiles that the checker (`plan`) accepts.
#![tactic(auto)]

ghost use Rattle.std.specs.Prelude.{◌≡◌, length};
ghost use Rattle.whole.specs.Row.{◌⨟◌};
ghost use Rattle.wire.specs.Refusal.{number_of};
ghost use Rattle.plan.specs.Plan.{Pictures, picks_fault};
ghost use Rattle.frame_write.specs.Job.{JobReady};
ghost use Rattle.frame_write.specs.Picked.{frame_picked, send_fault_picked};
ghost use Rattle.short_write.specs.Answer.{WroteShort};
ghost use Rattle.short_write.specs.Short.{own_fault, ShortWritten};

use frame_write::size::Job;
use plan::check::PlanRefusal;
use wire::Refusal;

// What is judged of the arguments alone: 5, 7, 2. By the lengths of the old picture, of the new one and of the two work lists.
fn own_judge(job: Job, old: usize, new: usize, list: usize, scratch: usize) -> Result<(), Refusal>
    ensures { number_of result ≡ own_fault job.width job.height job.mode job.quants old new list scratch }
{
    frame_write::call::arg_judge(job, new, list, scratch)?;
    if !frame_pieces::is_pixels(job.width, job.height, old) {
        return Err(Refusal::Buffer);
    }
    Ok(())
}

// What is left to refuse once the arguments are good: 16, 8, 17, then 9, 6, 13; then the frame of the listed tiles is written.
fn send_listed(
    out: &mut [u8],
    list: &mut [i32],
    scratch: &mut [i32],
    old: &[u8],
    new: &[u8],
    picks: &[u32],
    job: Job,
) -> Result<usize, PlanRefusal>
    requires { JobReady job new.now list.old scratch.old × Pictures job.width job.height old.now new.now }
    ensures { WroteShort (picks_fault old.now new.now job.width job.height picks.now ⨟ send_fault_picked job.index job.width job.height job.mode job.quants new.now picks.now (length out.old)) (frame_picked job.index job.width job.height job.mode job.quants new.now picks.now) out.old out.new result }
{
    plan::check::picks_judge(job.width, job.height, old, new, picks)?;
    Ok(frame_send::send(out, list, scratch, new, picks, job, picks.len())?)
}

// The short frame's writer, for any input: what the frame writer is asked (`job`), the old and the new picture of three bytes a pixel, the numbers of the
// tiles that are to be sent, two work lists.
pub fn write_frame_short(
    job: Job,
    old: &[u8],
    new: &[u8],
    picks: &[u32],
    list: &mut [i32],
    scratch: &mut [i32],
    out: &mut [u8],
) -> Result<usize, PlanRefusal>
    ensures { ShortWritten job.width job.height job.mode job.quants job.index old.now new.now picks.now list.old list.new scratch.old scratch.new out.old out.new result }
{
    own_judge(job, old.len(), new.len(), list.len(), scratch.len())?;
    let r = send_listed(out, list, scratch, old, new, picks, job);
    whole::clear(list);
    whole::clear(scratch);
    r
}
