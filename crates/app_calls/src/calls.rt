// Header calls and frame calls on the public functions of `panel`, each with its line of text: 01's number, its values, the record after it, and a hash of the
// lent memory. Lent lists hold 7 before a call. What 01 says of lent memory ("untouched", "only zeros") shows in the line. What each call answers and leaves is
// the promise of the call inside (specs/Calls). The frame call is there for pictures of either word size.
ghost use Rattle.std.specs.Prelude.{◌≡◌, false, leb, length, map, nat_le};
ghost use Rattle.whole.specs.Row.{◌!◌⨾◌};
ghost use Rattle.app_calls.specs.Calls.{header_left, heard, four_back, fits, FrameMade};

use app_recording::lent::{Hashed, all_are};
use colour::GlassWord;
use session::Session;
use wire::Refusal;

// The line of a frame call: a recording's; or a short one, with a comma in front of all but the first part; or words, with the call's count.
#[derive(Clone, Copy)]
pub enum Line {
    Recorded,
    Short(u64),
    Told(u64),
}

fn both_are(a: &[i32], b: &[i32], v: i32) -> bool {
    all_are(a, v) && all_are(b, v)
}

// u: the two lists are untouched (7); z: they hold only zeros.
fn pair_letter(a: &[i32], b: &[i32]) -> u8 {
    if both_are(a, b, 7) {
        return b'u';
    }
    if both_are(a, b, 0) {
        return b'z';
    }
    b'?'
}

// Four lists, two and two: the letter that both pairs have.
fn work_letter(one: u8, two: u8) -> u8 {
    if one == two {
        return one;
    }
    b'?'
}

// One header call: its number is said with the record after it.
pub fn header_call(s: Session, message: &[u8]) -> Session
    ensures { result ≡ header_left s message.now }
{
    let h = panel::read_header(s, message);
    let after = session::header_record(h, s);
    crate::lines::say_header(wire::number_of(h), after);
    after
}

// A header call: 01's number, and the record after it.
#[derive(Clone, Copy)]
pub struct Heard {
    pub number: u8,
    pub session: Session,
}

fn read_one(s: Session, message: &[u8]) -> Heard
    ensures { result ≡ heard s message.now }
{
    let h = panel::read_header(s, message);
    let after = session::header_record(h, s);
    Heard {
        number: wire::number_of(h),
        session: after,
    }
}

// Four header calls: 01's numbers, and the record after the last.
#[derive(Clone, Copy)]
pub struct Fourfold {
    pub one: u8,
    pub two: u8,
    pub three: u8,
    pub four: u8,
    pub session: Session,
}

// Four headers of our writer, each to a header call; 1 (cut) where they are not all there.
pub fn headers_back(s: Session, out: &[u8]) -> Fourfold
    ensures { result ≡ four_back s out.now }
{
    if out.len() < 47 {
        return Fourfold {
            one: 1,
            two: 1,
            three: 1,
            four: 1,
            session: s,
        };
    }
    let one = read_one(s, &out[0..12]);
    let two = read_one(one.session, &out[12..22]);
    let three = read_one(two.session, &out[22..34]);
    let four = read_one(three.session, &out[34..47]);
    let after = four.session;
    Fourfold {
        one: one.number,
        two: two.number,
        three: three.number,
        four: four.number,
        session: after,
    }
}

// The same with its line; the record after the last.
pub fn headers_back_call(s: Session, out: &[u8]) -> Session
    ensures { result ≡ (four_back s out.now).session }
{
    let f = headers_back(s, out);
    crate::lines::say_fourfold(f.one, f.two, f.three, f.four, f.session);
    f.session
}

// How long the work lists are that a call is lent.
#[derive(Clone, Copy)]
pub struct Lengths {
    pub one: usize,
    pub two: usize,
    pub three: usize,
}

// The line of a frame call that was made.
fn say_line<W: GlassWord + Hashed>(
    l: Line,
    s: Session,
    r: Result<usize, Refusal>,
    letter: u8,
    picture: &[W],
) {
    let number = wire::number_of(r);
    let tiles = wire::count_of(r);
    match l {
        Line::Recorded => {
            let hash = app_recording::lent::hash(picture);
            crate::lines::say_frame(number, tiles, letter, s, hash);
        }
        Line::Short(before) => crate::lines::say_short_frame(before, number, tiles),
        Line::Told(count) => app_text::lines::say_frame(app_text::lines::ERR, count, number, tiles),
    }
}

// The frame call, with its third list, a part of one of 8,192; false where more is asked for.
fn frame_with_two<W: GlassWord + Hashed>(
    s: Session,
    message: &[u8],
    picture: &mut [W],
    y: &mut [i32],
    cb: &mut [i32],
    three: usize,
    l: Line,
) -> bool
    ensures { FrameMade W.GLASS (nat_le three 8192) s message.now (length y.old) (length cb.old) three (map W.number picture.old) (map W.number picture.new) result }
{
    let mut space = [7i32; 8192];
    let mut scratch = [7i32; 4096];
    let cr: &mut [i32] = &mut space;
    if cr.len() < three {
        return false;
    }
    let r = panel::read_frame(s, message, picture, y, cb, &mut cr[0..three], &mut scratch);
    let after = &cr[..];
    let letter = work_letter(pair_letter(y, cb), pair_letter(&after[0..three], &scratch));
    say_line(l, s, r, letter, picture);
    true
}

// The same with its second list.
fn frame_with_one<W: GlassWord + Hashed>(
    s: Session,
    message: &[u8],
    picture: &mut [W],
    y: &mut [i32],
    n: Lengths,
    l: Line,
) -> bool
    ensures { FrameMade W.GLASS (leb n.two 8192 ! false ⨾ leb n.three 8192) s message.now (length y.old) n.two n.three (map W.number picture.old) (map W.number picture.new) result }
{
    let mut space = [7i32; 8192];
    let cb: &mut [i32] = &mut space;
    let two = n.two;
    if cb.len() < two {
        return false;
    }
    frame_with_two(s, message, picture, y, &mut cb[0..two], n.three, l)
}

// One frame call, on lists of these lengths; false where more is asked for than there is.
pub fn frame_call<W: GlassWord + Hashed>(
    s: Session,
    message: &[u8],
    picture: &mut [W],
    n: Lengths,
    l: Line,
) -> bool
    ensures { FrameMade W.GLASS (fits n.one n.two n.three) s message.now n.one n.two n.three (map W.number picture.old) (map W.number picture.new) result }
{
    let mut space = [7i32; 8192];
    let y: &mut [i32] = &mut space;
    let one = n.one;
    if y.len() < one {
        return false;
    }
    frame_with_one(s, message, picture, &mut y[0..one], n, l)
}
