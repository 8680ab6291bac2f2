// The three calls of sending only what changed, for C (02, request Eleven): the checker, the planner and the short frame's writer. A list is a pointer and its
// length; the answer is the number of the first fault, 0 for done. The planner's count and the writer's length are stored on every answer, refused 0. Each is
// one call of `plan` or of `short_write` and promises what that one does (specs/Short). Nothing here has a `requires`.
ghost use Rattle.std.specs.Prelude.{◌≡◌};
ghost use Rattle.plan.specs.Plan.{plan_fault};
ghost use Rattle.plan.specs.Made.{MakePlanCall};
ghost use Rattle.panel.specs.Short.{WriteShortCall};

use bands::Quant;
use frame_write::size::Job;
use quants::Quants;

// Judges a list of the tiles that are to be sent. Both pictures are three bytes a pixel (R, G, B), row by row.
#[unsafe(no_mangle)]
pub extern "C" fn xurbalenz_check_plan(
    width: usize,
    height: usize,
    old: &[u8],
    next: &[u8],
    picks: &[u32],
) -> u8
    ensures { result ≡ plan_fault width height old.now next.now picks.now }
{
    wire::number_of(plan::check::check_plan(width, height, old, next, picks))
}

// Lists the tiles that differ.
#[unsafe(no_mangle)]
pub extern "C" fn xurbalenz_make_plan(
    width: usize,
    height: usize,
    old: &[u8],
    next: &[u8],
    picks: &mut [u32],
    count: &mut usize,
) -> u8
    ensures { MakePlanCall width height old.now next.now picks.old picks.new count.new result }
{
    let p = plan::make::make_plan(width, height, old, next, picks);
    *count = wire::count_of(p);
    wire::number_of(p)
}

// Writes one frame of the listed tiles of the new picture, with the ten quantisers behind `luma` for Y and those behind `chroma` for Cb and Cr; `size` is its
// length in bytes, refused 0.
#[unsafe(no_mangle)]
pub extern "C" fn xurbalenz_write_frame_short(
    width: usize,
    height: usize,
    mode: u8,
    luma: &[u8; 10],
    chroma: &[u8; 10],
    index: u32,
    old: &[u8],
    next: &[u8],
    picks: &[u32],
    list: &mut [i32],
    scratch: &mut [i32],
    out: &mut [u8],
    size: &mut usize,
) -> u8
    ensures { WriteShortCall width height mode luma.now chroma.now index old.now next.now picks.now list.old list.new scratch.old scratch.new out.old out.new size.new result }
{
    let q = Quants {
        luma: Quant { v: *luma },
        chroma: Quant { v: *chroma },
    };
    let job = Job {
        width: width,
        height: height,
        mode: mode,
        index: index as usize,
        quants: q,
    };
    let w = short_write::write_frame_short(job, old, next, picks, list, scratch, out);
    *size = wire::count_of(w);
    wire::number_of(w)
}
