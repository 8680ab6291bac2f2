// The code elements of document 01 read from a word (document 02, request Ten: "Look at a word at a time and count its leading bits"): the element
// at a place of 57 bits, by the steps of `element`, whose judgements it shares. An element that does not lie in the word whole is cut there.
// One function for each kind, so that no element is joined with one of another kind before it is stored: that keeps it in registers.
ghost use Rattle.std.specs.Prelude.{◌≡◌, ◌/◌, ◌≤◌, drop};
ghost use Rattle.bits.specs.Bits.{num_bits, gr_of, num_of};
ghost use Rattle.code.specs.ReadList.{one_elem, two_elem, run_first};

use crate::element::{Element, State};
use wire::Refusal;

// An element with k = 0 in RLGR1, of a word.
pub fn single_in(w: u64, c: State) -> Result<Element, Refusal>
    requires { (c.at ≤ 57) × (c.kp ≤ 80) × (c.krp ≤ 80) }
    ensures { result ≡ one_elem c.kp c.krp (gr_of (c.krp / 8) c.at (num_bits 57 w)) }
{
    let (g, next) = bits::word::golomb_in(w, c.at, c.krp / 8).ok_or(Refusal::Cut)?;
    crate::element::judge_one(c, g, next)
}

// An element with k = 0 in RLGR3, of a word.
pub fn pair_in(w: u64, c: State, left: usize) -> Result<Element, Refusal>
    requires { (c.at ≤ 57) × (c.kp ≤ 80) × (c.krp ≤ 80) }
    ensures { result ≡ two_elem c.kp c.krp left (num_bits 57 w) (gr_of (c.krp / 8) c.at (num_bits 57 w)) }
{
    let (g, mid) = bits::word::golomb_in(w, c.at, c.krp / 8).ok_or(Refusal::Cut)?;
    let (a, next) = bits::word::number_in(w, mid, crate::element::bit_size(g)).ok_or(Refusal::Cut)?;
    crate::element::judge_pair(c, left, g, a, next)
}

// The bits of a run after its 1, of a word.
pub fn run_value_in(w: u64, c: State, left: usize, from: usize) -> Result<Element, Refusal>
    requires { (from ≤ 57) × (c.kp ≤ 80) × (c.krp ≤ 80) }
    ensures { result ≡ run_first c.kp c.krp left (num_bits 57 w) (num_of (c.kp / 8) 0 from (drop from (num_bits 57 w))) }
{
    let (z, mid) = bits::word::number_in(w, from, c.kp / 8).ok_or(Refusal::Cut)?;
    let (sign, late) = bits::word::number_in(w, mid, 1).ok_or(Refusal::Cut)?;
    let (g, next) = bits::word::golomb_in(w, late, c.krp / 8).ok_or(Refusal::Cut)?;
    crate::element::judge_run(c, left, z, sign, g, next)
}
