// The three calls of sending only what changed, for C (02, request Eleven), under their C names: each is one call of the panel's own of that name (panel's short.rt)
// and promises what that one does. Nothing here has a `requires`.
ghost use Rattle.std.specs.Prelude.{◌≡◌};
ghost use Rattle.plan.specs.Plan.{plan_fault};
ghost use Rattle.plan.specs.Made.{MakePlanCall};
ghost use Rattle.panel.specs.Short.{WriteShortCall};

// Judges a list of the tiles that are to be sent. Both pictures are three bytes a pixel (R, G, B), row by row.
#[unsafe(no_mangle)]
pub extern "C" fn xurbalenz_check_plan(
    width: usize,
    height: usize,
    old: &[u8],
    next: &[u8],
    picks: &[u32],
) -> u8
    ensures { result ≡ plan_fault width height old.now next.now picks.now }
{
    panel::short::xurbalenz_check_plan(width, height, old, next, picks)
}

// Lists the tiles that differ.
#[unsafe(no_mangle)]
pub extern "C" fn xurbalenz_make_plan(
    width: usize,
    height: usize,
    old: &[u8],
    next: &[u8],
    picks: &mut [u32],
    count: &mut usize,
) -> u8
    ensures { MakePlanCall width height old.now next.now picks.old picks.new count.new result }
{
    panel::short::xurbalenz_make_plan(width, height, old, next, picks, count)
}

// Writes one frame of the listed tiles of the new picture, with the ten quantisers behind `luma` for Y and those behind `chroma` for Cb and Cr; `size` is its
// length in bytes, refused 0.
#[unsafe(no_mangle)]
pub extern "C" fn xurbalenz_write_frame_short(
    width: usize,
    height: usize,
    mode: u8,
    luma: &[u8; 10],
    chroma: &[u8; 10],
    index: u32,
    old: &[u8],
    next: &[u8],
    picks: &[u32],
    list: &mut [i32],
    scratch: &mut [i32],
    out: &mut [u8],
    size: &mut usize,
) -> u8
    ensures { WriteShortCall width height mode luma.now chroma.now index old.now next.now picks.now list.old list.new scratch.old scratch.new out.old out.new size.new result }
{
    panel::short::xurbalenz_write_frame_short(
        width, height, mode, luma, chroma, index, old, next, picks, list, scratch, out, size,
    )
}
