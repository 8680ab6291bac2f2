// Two pictures of one size: the stream of the old one, then a short frame of the new one, of the tiles that are listed (02, request Eleven).
ghost use Rattle.std.specs.Prelude.{◌≡◌, ◌-◌, ◌≤◌, length};
ghost use Rattle.short_write.specs.Answer.{WroteShort};
ghost use Rattle.app_send.specs.Stream.{Behind};
ghost use Rattle.app_send.specs.Pair.{pair_of};
ghost use Rattle.app_send.specs.Both.{next_index, next_task, short_fault_in, short_bytes, Changed, BothSent, FilesSent};

use crate::{Task, Unmade};
use frame_write::size::Job;
use plan::check::PlanRefusal;
use settings::Settings;

// How many bytes of the output are the stream, and of those the short frame; the bytes that a full frame of the new picture would have had in its place,
// and how many tiles the short one has.
#[derive(Clone, Copy)]
pub struct Both {
    pub size: usize,
    pub short: usize,
    pub full: usize,
    pub tiles: usize,
}

// How many tiles a picture has.
pub fn tiles_of(width: usize, height: usize) -> usize
    ensures { Unit }
{
    if 4096 < width {
        return 0;
    }
    if 2048 < height {
        return 0;
    }
    frame_pieces::tiles_no(width, height)
}

// The index behind another.
fn next_index(index: u32) -> u32
    ensures { result ≡ next_index index }
{
    if index == 4294967295 {
        return 0;
    }
    index + 1
}

fn next(t: Task) -> Task
    ensures { result ≡ next_task t }
{
    let s = t.settings;
    Task {
        settings: s,
        index: next_index(t.index),
        width: t.width,
        height: t.height,
    }
}

// The short frame of the listed tiles.
fn short_into(
    t: Task,
    old: &[u8],
    new: &[u8],
    picks: &[u32],
    out: &mut [u8],
) -> Result<usize, PlanRefusal>
    ensures { WroteShort (short_fault_in t old.now new.now picks.now (length out.old)) (short_bytes t new.now picks.now) out.old out.new result }
{
    let mut list = [0i32; 4096];
    let mut scratch = [0i32; 4096];
    let job = Job {
        width: t.width,
        height: t.height,
        mode: t.settings.mode,
        index: t.index as usize,
        quants: t.settings.quants,
    };
    short_write::write_frame_short(job, old, new, picks, &mut list, &mut scratch, out)
}

// The same behind what stands in the output.
fn short_behind(
    t: Task,
    old: &[u8],
    new: &[u8],
    picks: &[u32],
    at: usize,
    out: &mut [u8],
) -> Result<usize, PlanRefusal>
    requires { at ≤ length out.old }
    ensures { Behind (short_fault_in t old.now new.now picks.now (length out.old - at)) (short_bytes t new.now picks.now) at out.old out.new result }
{
    let e = out.len();
    short_into(t, old, new, picks, &mut out[at..e])
}

// Behind a stream that ends at a place: a full frame of the new picture for its length, and the short one in its place.
fn change(
    t: Task,
    old: &[u8],
    new: &[u8],
    picks: &[u32],
    at: usize,
    out: &mut [u8],
) -> Result<Both, Unmade>
    requires { at ≤ length out.old }
    ensures { Changed t old.now new.now picks.now at out.old out.new result }
{
    let f = crate::frame_behind(t, new, at, out);
    let w = short_behind(t, old, new, picks, at, out);
    Ok(Both {
        size: crate::after(at, w)?,
        short: wire::count_of(w),
        full: wire::count_of(f),
        tiles: picks.len(),
    })
}

// Headers, the full frame of the old picture, the short one of the new.
pub fn make(t: Task, old: &[u8], new: &[u8], picks: &[u32], out: &mut [u8]) -> Result<Both, Unmade>
    ensures { BothSent t old.now new.now picks.now (length out.old) out.new result }
{
    let size = crate::make(t, old, out)?;
    change(next(t), old, new, picks, size, out)
}

// The pictures as files have them.
pub fn pictures(
    s: Settings,
    index: u32,
    old: &[u8],
    new: &[u8],
    picks: &[u32],
    out: &mut [u8],
) -> Result<Both, Unmade>
    ensures { FilesSent s index old.now new.now picks.now (length out.old) (pair_of old.now new.now) out.new result }
{
    let p = crate::pair::read(old, new)?;
    let t = Task {
        settings: s,
        index: index,
        width: p.width,
        height: p.height,
    };
    make(
        t,
        app_text::loading::rest(old, p.old),
        app_text::loading::rest(new, p.new),
        picks,
        out,
    )
}
