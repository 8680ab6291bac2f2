// The frame call of document 01 over the record by value ("Order. Frame call", "Numbers the fitter sees"): the record (12), the
// lent memory (2), every block and every tile with its codes, and only then the picture. Work lists are left with zeros.
ghost use Rattle.std.specs.Prelude.{◌≡◌, length, map};
ghost use Rattle.wire.specs.Refusal.{number_of};
ghost use Rattle.session.specs.Header.{Right};
ghost use Rattle.frame_layout.specs.Reader.{frame_fault, tile_count};
ghost use Rattle.frame_blocks.specs.Judged.{judged, SetSound};
ghost use Rattle.frame_draw.specs.Show.{Lists};
ghost use Rattle.frame.specs.Frame.{full, call_fault, front_fault, Cleared, pass_of, FrameJudged, FrameRead};

use colour::GlassWord;
use frame_draw::tiles::Pass;
use session::Session;
use wire::Refusal;

// Has each work list its 4,096 numbers?
fn is_full(a: usize, b: usize, c: usize, t: usize) -> bool
    ensures { result ≡ full a b c t }
{
    if a != 4096 {
        return false;
    }
    if b != 4096 {
        return false;
    }
    if c != 4096 {
        return false;
    }
    t == 4096
}

// What is judged before the message: the record (12), then the lent memory (2); word is the picture's word size (0 is 16 bits, 1 is 32) and p its
// length, held against the record's glass and words.
fn call_judge(
    word: u8,
    s: Session,
    p: usize,
    a: usize,
    b: usize,
    c: usize,
    t: usize,
) -> Result<(), Refusal>
    ensures { number_of result ≡ call_fault word s p a b c t }
{
    if !session::is_ready(s) {
        return Err(Refusal::Order);
    }
    if !is_full(a, b, c, t) {
        return Err(Refusal::Buffer);
    }
    if word != s.glass {
        return Err(Refusal::Buffer);
    }
    if p < s.words as usize {
        return Err(Refusal::Buffer);
    }
    Ok(())
}

// begin, region, and the tileset up to its tiles
pub fn front_fault(mode: u8, m: &[u8]) -> Result<(), Refusal>
    ensures { number_of result ≡ front_fault mode m.now }
{
    frame_blocks::block::begin_fault(m)?;
    frame_blocks::block::region_fault(m, 14)?;
    let size = wire::le32_at(m, 16);
    frame_blocks::block::set_front(mode, m, 14 + size)
}

// The check pass: the first fault of the whole message.
pub fn message_fault(s: Session, m: &[u8], work: &mut [i32]) -> Result<(), Refusal>
    requires { Right s × (length work.old ≡ 4096) }
    ensures { number_of result ≡ frame_fault judged s.width s.height s.mode m.now }
{
    front_fault(s.mode, m)?;
    let sp = 14 + wire::le32_at(m, 16);
    crate::check::check(s, m, sp, work)?;
    let size = wire::le32_at(m, sp + 2);
    frame_blocks::block::end_fault(m, sp + size)
}

// The numbers of the draw pass over a message without a fault.
fn pass_of(s: Session, m: &[u8]) -> Pass
    requires { 0 ≡ frame_fault judged s.width s.height s.mode m.now }
    ensures { result ≡ pass_of s m.now }
{
    Pass {
        mode: s.mode,
        w: s.width as usize,
        h: s.height as usize,
        sp: 14 + wire::le32_at(m, 16),
    }
}

// "numTiles" of the tileset at a place.
fn tile_count(m: &[u8], sp: usize) -> usize
    requires { SetSound m.now sp }
    ensures { result ≡ tile_count m.now sp }
{
    wire::le16_at(m, sp + 16)
}

fn clear_all(ys: &mut [i32], cbs: &mut [i32], crs: &mut [i32], tmp: &mut [i32])
    requires { Lists ys.old cbs.old crs.old tmp.old }
    ensures { Cleared ys.new cbs.new crs.new tmp.new }
{
    whole::clear(ys);
    whole::clear(cbs);
    whole::clear(crs);
    whole::clear(tmp);
}

// All that is judged before the picture is touched, for a picture of p words of a size.
#[tactic(auto, using(crate::specs::laws::Frame::number_onward, crate::specs::laws::Frame::list_onward))]
fn judge_frame(
    word: u8,
    s: Session,
    p: usize,
    m: &[u8],
    ys: &mut [i32],
    cbs: &mut [i32],
    crs: &mut [i32],
    tmp: &mut [i32],
) -> Result<(), Refusal>
    ensures { FrameJudged word s p m.now ys.old cbs.old crs.old tmp.old ys.new cbs.new crs.new tmp.new (number_of result) }
{
    call_judge(word, s, p, ys.len(), cbs.len(), crs.len(), tmp.len())?;
    if let Err(fault) = message_fault(s, m, tmp) {
        clear_all(ys, cbs, crs, tmp);
        return Err(fault);
    }
    Ok(())
}

// The frame call, for any record, message, lists and picture of 16-bit or of 32-bit words: how many tiles it has; the record is left as it is.
pub fn take_frame<W: GlassWord>(
    s: Session,
    m: &[u8],
    picture: &mut [W],
    ys: &mut [i32],
    cbs: &mut [i32],
    crs: &mut [i32],
    tmp: &mut [i32],
) -> Result<usize, Refusal>
    ensures { FrameRead W.GLASS s m.now (map W.number picture.old) ys.old cbs.old crs.old tmp.old (map W.number picture.new) ys.new cbs.new crs.new tmp.new result }
{
    judge_frame(W::GLASS, s, picture.len(), m, ys, cbs, crs, tmp)?;
    let p = pass_of(s, m);
    frame_draw::paint::show(picture, p, m, ys, cbs, crs, tmp);
    clear_all(ys, cbs, crs, tmp);
    Ok(tile_count(m, p.sp))
}
