// The planner (document 02, request Eleven): "Ship a planner of our own too." It lists exactly the tiles that differ.
ghost use Rattle.std.specs.Prelude.{◌≡◌, ◌≤◌, length, leb};
ghost use Rattle.wire.specs.Le.{written};
ghost use Rattle.plan.specs.Plan.{Pictures, changed};
ghost use Rattle.plan.specs.Made.{PlanMade};

use wire::Refusal;

// How many tiles differ?
fn count_changed(w: usize, h: usize, old: &[u8], new: &[u8]) -> usize
    requires { Pictures w h old.now new.now }
    ensures { result ≡ length (changed old.now new.now w h) }
{
    let n = frame_pieces::tiles_no(w, h);
    let mut count: usize = 0;
    for k in 0..n {
        if crate::same::is_changed(w, h, old, new, k) {
            count += 1;
        }
    }
    count
}

// Has a list of so many numbers room for those of all tiles that differ? Where it has room for all tiles nothing is compared.
fn has_room(w: usize, h: usize, old: &[u8], new: &[u8], room: usize) -> bool
    requires { Pictures w h old.now new.now }
    ensures { result ≡ leb (length (changed old.now new.now w h)) room }
{
    if frame_pieces::tiles_no(w, h) <= room {
        return true;
    }
    count_changed(w, h, old, new) <= room
}

// The numbers of the tiles that differ, into a list that has room for them. The answer is how many.
fn list_changed(w: usize, h: usize, old: &[u8], new: &[u8], out: &mut [u32]) -> usize
    requires { Pictures w h old.now new.now × (length (changed old.now new.now w h) ≤ length out.old) }
    ensures { (result ≡ length (changed old.now new.now w h)) × (out.new ≡ written (changed old.now new.now w h) out.old) }
{
    let n = frame_pieces::tiles_no(w, h);
    let mut i: usize = 0;
    for k in 0..n {
        if crate::same::is_changed(w, h, old, new, k) {
            out[i] = k as u32;
            i += 1;
        }
    }
    i
}

// The planner, for any input: the numbers of the tiles that differ, rising, into the list that is lent. Refused (5, 2, 13) it is untouched.
pub fn make_plan(
    width: usize,
    height: usize,
    old: &[u8],
    new: &[u8],
    out: &mut [u32],
) -> Result<usize, Refusal>
    ensures { PlanMade width height old.now new.now out.old out.new result }
{
    crate::check::pictures_judge(width, height, old.len(), new.len())?;
    if !has_room(width, height, old, new, out.len()) {
        return Err(Refusal::Room);
    }
    Ok(list_changed(width, height, old, new, out))
}
