// One code element for the loose walk (01, "The component code"), by the readings and judgements that the component reader has: `bits::golomb`, `bits::number`,
// `code::element::judge_one` and its like. It promises what `code::element::read_element` does and stands beside it, because that one has one caller and so is
// compiled into the reader's loop: a second caller would cost every frame (docs/DECISIONS.md, 126). This one reads frames that the panel refuses as they came.
ghost use Rattle.std.specs.Prelude.{◌≡◌, ◌/◌, ◌<◌, ◌≤◌, length, drop};
ghost use Rattle.bits.specs.Bits.{bits_of, num_of};
ghost use Rattle.code.specs.ReadList.{run_first, elem_of};

use code::element::{Element, State};
use wire::Refusal;

// An element with k = 0: the GR number, and in RLGR3 the first half behind it.
#[tactic(auto, unfolding(code::specs::ReadList::elem_of))]
fn low(s: &[u8], rlgr3: bool, c: State, left: usize) -> Result<Element, Refusal>
    requires { (length s.now ≤ 65535) × (c.kp < 8) × (c.krp ≤ 80) }
    ensures { result ≡ elem_of rlgr3 c.kp c.krp left c.at (bits_of s.now) }
{
    let (g, mid) = bits::golomb(s, c.at, c.krp / 8).ok_or(Refusal::Cut)?;
    if !rlgr3 {
        return code::element::judge_one(c, g, mid);
    }
    let (a, next) = bits::number(s, mid, code::element::bit_size(g)).ok_or(Refusal::Cut)?;
    code::element::judge_pair(c, left, g, a, next)
}

// The bits of a run after its 1: the zeros, the sign, the GR number.
fn run_value(s: &[u8], c: State, left: usize, from: usize) -> Result<Element, Refusal>
    requires { (length s.now ≤ 65535) × (c.kp ≤ 80) × (c.krp ≤ 80) }
    ensures { result ≡ run_first c.kp c.krp left (bits_of s.now) (num_of (c.kp / 8) 0 from (drop from (bits_of s.now))) }
{
    let (z, mid) = bits::number(s, from, c.kp / 8).ok_or(Refusal::Cut)?;
    let (sign, late) = bits::number(s, mid, 1).ok_or(Refusal::Cut)?;
    let (g, next) = bits::golomb(s, late, c.krp / 8).ok_or(Refusal::Cut)?;
    code::element::judge_run(c, left, z, sign, g, next)
}

// One code element.
#[tactic(auto, unfolding(code::specs::ReadList::elem_of))]
pub fn read_element(s: &[u8], rlgr3: bool, c: State, left: usize) -> Result<Element, Refusal>
    requires { (length s.now ≤ 65535) × (c.kp ≤ 80) × (c.krp ≤ 80) }
    ensures { result ≡ elem_of rlgr3 c.kp c.krp left c.at (bits_of s.now) }
{
    if c.kp < 8 {
        return low(s, rlgr3, c, left);
    }
    let (b, next) = bits::number(s, c.at, 1).ok_or(Refusal::Cut)?;
    if b == 0 {
        let t = State {
            at: next,
            kp: code::element::more(c.kp, 4),
            krp: c.krp,
        };
        return Ok(Element::Zeros(1usize << (c.kp / 8), t));
    }
    run_value(s, c, left, next)
}
