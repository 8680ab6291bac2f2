// The checker (document 02, request Eleven): "takes the old and the new RGB picture of one size and a list of tile numbers .. Out of order is 16, no such
// tile 8, a changed tile missing 17, first in this order; before all, a size that 01 refuses is 5, then wrong picture lengths 2."
ghost use Rattle.std.specs.Prelude.{◌≡◌, true};
ghost use Rattle.wire.specs.Refusal.{number_of};
ghost use Rattle.plan.specs.Answer.{why_number, plan_number};
ghost use Rattle.plan.specs.declared.check.PlanRefusal.TheVariants.{Common};
ghost use Rattle.plan.specs.Plan.{Pictures, pictures_fault, rising, below, covers, picks_fault, plan_fault};
ghost use Rattle.plan.specs.Runs.{listed_at};

use wire::{Numbered, Refusal};

// Why a list of tile numbers is not accepted: for one of 01's reasons, or for one of the two that request Eleven adds.
#[derive(Clone, Copy, Debug, PartialEq, Eq)]
pub enum PlanRefusal {
    Common(Refusal),
    Unordered,
    Missing,
}

impl Numbered for PlanRefusal {
    ghost value = { why_number };

    // 01's, 16 for a list that does not rise, 17 for one without a tile that changed.
    fn number(self) -> u8 {
        match self {
            PlanRefusal::Common(refusal) => refusal.number(),
            PlanRefusal::Unordered => 16,
            PlanRefusal::Missing => 17,
        }
    }
}

impl From<Refusal> for PlanRefusal {
    ghost from_gives = { λ refusal why. why ≡ Common refusal };

    fn from(refusal: Refusal) -> PlanRefusal {
        PlanRefusal::Common(refusal)
    }
}

// What is judged of the size and of the two pictures' lengths: 5, 2.
pub fn pictures_judge(w: usize, h: usize, old: usize, new: usize) -> Result<(), Refusal>
    ensures { number_of result ≡ pictures_fault w h old new }
{
    if !session::is_size(w, h) {
        return Err(Refusal::Field);
    }
    if !frame_pieces::is_pixels(w, h, old) {
        return Err(Refusal::Buffer);
    }
    if !frame_pieces::is_pixels(w, h, new) {
        return Err(Refusal::Buffer);
    }
    Ok(())
}

// Is every number above the one before it?
fn is_rising(picks: &[u32]) -> bool
    ensures { result ≡ rising picks.now }
{
    picks.is_sorted_by(|a, b| *a < *b)
}

// Is every number that of one of n tiles?
fn is_below(n: usize, picks: &[u32]) -> bool
    ensures { result ≡ below n picks.now }
{
    for k in picks {
        if n <= *k as usize {
            return false;
        }
    }
    true
}

// Does number k stand at a place of the list?
fn is_at(picks: &[u32], i: usize, k: usize) -> bool
    ensures { result ≡ listed_at picks.now i k }
{
    if i < picks.len() {
        return picks[i] as usize == k;
    }
    false
}

// Is every tile that differs listed? One walk over the tiles, with a finger in the rising list; a tile that is listed is not compared.
fn is_covering(w: usize, h: usize, old: &[u8], new: &[u8], picks: &[u32]) -> bool
    requires { Pictures w h old.now new.now × (rising picks.now ≡ true) }
    ensures { result ≡ covers old.now new.now w h picks.now }
{
    let n = frame_pieces::tiles_no(w, h);
    let mut finger = 0;
    for k in 0..n {
        if is_at(picks, finger, k) {
            finger += 1;
        } else if crate::same::is_changed(w, h, old, new, k) {
            return false;
        }
    }
    true
}

// What is judged of the list: 16, 8, 17.
pub fn picks_judge(
    w: usize,
    h: usize,
    old: &[u8],
    new: &[u8],
    picks: &[u32],
) -> Result<(), PlanRefusal>
    requires { Pictures w h old.now new.now }
    ensures { plan_number result ≡ picks_fault old.now new.now w h picks.now }
{
    if !is_rising(picks) {
        return Err(PlanRefusal::Unordered);
    }
    if !is_below(frame_pieces::tiles_no(w, h), picks) {
        return Err(PlanRefusal::Common(Refusal::Place));
    }
    if !is_covering(w, h, old, new, picks) {
        return Err(PlanRefusal::Missing);
    }
    Ok(())
}

// The checker, for any input: two pictures of three bytes a pixel, and the numbers of the tiles that are to be sent.
pub fn check_plan(
    width: usize,
    height: usize,
    old: &[u8],
    new: &[u8],
    picks: &[u32],
) -> Result<(), PlanRefusal>
    ensures { plan_number result ≡ plan_fault width height old.now new.now picks.now }
{
    pictures_judge(width, height, old.len(), new.len())?;
    picks_judge(width, height, old, new, picks)
}
