// The calls of a recording that read or write a component, write headers or write a frame, each with its line of text: 01's number, its values, and a hash of the
// lent memory. Lent lists hold 7 before a call, and lent output A5. What 01 says of lent memory ("untouched", "only zeros") shows in the line. What each call
// answers and leaves is the promise of the call inside (specs/Answers).
ghost use Rattle.std.specs.Prelude.{◌≡◌, leb, length};
ghost use Rattle.code_write.specs.Write.{bytes_of, write_fault};
ghost use Rattle.headers.specs.Headers.{headers_of, headers_fault};
ghost use Rattle.app_answers.specs.Answers.{component_left, WriterSaid, pair_fits, sent_fault, sent_bytes, FrameSent, AskedWritten, short_sent_fault, short_sent_bytes};

use frame_write::size::Job;
use quants::Quants;
use wire::Refusal;

// u: the two lists are untouched (7); z: they hold only zeros.
fn letter_of(a: &[i32], b: &[i32]) -> u8 {
    if app_recording::lent::all_are(a, 7) && app_recording::lent::all_are(b, 7) {
        return b'u';
    }
    if app_recording::lent::all_are(a, 0) && app_recording::lent::all_are(b, 0) {
        return b'z';
    }
    b'?'
}

// One call of the component reader on a list lent.
pub fn component_call(mode: u8, code: &[u8], list: &mut [i32])
    ensures { list.new ≡ component_left mode code.now list.old }
{
    list.fill(7);
    let r = panel::read_component(mode, code, list);
    crate::lines::say_hash(
        code::read::reading_number(r),
        code::read::reading_bits(r),
        app_recording::lent::hash(list),
    );
}

// One call of the component writer; the bytes that it wrote.
pub fn writer_call(mode: u8, list: &[i32], out: &mut [u8]) -> usize
    ensures { WriterSaid (write_fault mode list.now (length out.old)) (bytes_of mode list.now) out.old out.new result }
{
    out.fill(0xA5);
    let w = panel::write_component(mode, list, out);
    let n = wire::count_of(w);
    crate::lines::say_hash(wire::number_of(w), n, app_recording::lent::hash(out));
    n
}

// One call of the header writer; the bytes that it wrote.
pub fn headers_call(width: usize, height: usize, mode: u8, out: &mut [u8]) -> usize
    ensures { WriterSaid (headers_fault width height mode (length out.old)) (headers_of width height mode) out.old out.new result }
{
    out.fill(0xA5);
    let w = panel::write_headers(width, height, mode, out);
    let n = wire::count_of(w);
    crate::lines::say_hash(wire::number_of(w), n, app_recording::lent::hash(out));
    n
}

// What the frame writer is asked for, beside memory; `sets` where it is the one over luma's and chroma's quantisers, else they are luma's.
#[derive(Clone, Copy)]
pub struct Asked {
    pub width: usize,
    pub height: usize,
    pub mode: u8,
    pub index: u32,
    pub q: Quants,
    pub sets: bool,
}

// The one frame writer or the other.
fn written_by(
    a: Asked,
    pixels: &[u8],
    list: &mut [i32],
    scratch: &mut [i32],
    out: &mut [u8],
) -> Result<usize, Refusal>
    ensures { AskedWritten a pixels.now list.old list.new scratch.old scratch.new out.old out.new result }
{
    let w = a.width;
    let h = a.height;
    if a.sets {
        return panel::write_frame_sets(w, h, a.mode, a.q, a.index, pixels, list, scratch, out);
    }
    panel::write_frame(w, h, a.mode, a.q.luma, a.index, pixels, list, scratch, out)
}

// The frame writer on an output of A5, with its second list, a part of one of 8,192; a count of bytes beyond any output, and nothing filled, where more is asked for.
fn writer_with_one(a: Asked, pixels: &[u8], list: &mut [i32], two: usize, out: &mut [u8]) -> usize
    ensures { FrameSent (leb two 8192) (sent_fault a pixels.now (length list.old) two (length out.old)) (sent_bytes a pixels.now) out.old out.new result }
{
    let mut space = [7i32; 8192];
    let scratch: &mut [i32] = &mut space;
    if scratch.len() < two {
        // more is asked for than there is: the largest number, as `FrameSent` of specs/ has it
        return usize::MAX;
    }
    out.fill(0xA5);
    let w = written_by(a, pixels, list, &mut scratch[0..two], out);
    let n = wire::count_of(w);
    let after = &scratch[..];
    crate::lines::say_written(
        wire::number_of(w),
        n,
        letter_of(list, &after[0..two]),
        app_recording::lent::hash(out),
    );
    n
}

// One call of the frame writer, on lists of these lengths; the bytes that it wrote.
pub fn frame_writer_call(a: Asked, pixels: &[u8], one: usize, two: usize, out: &mut [u8]) -> usize
    ensures { FrameSent (pair_fits one two) (sent_fault a pixels.now one two (length out.old)) (sent_bytes a pixels.now) out.old out.new result }
{
    let mut space = [7i32; 8192];
    let list: &mut [i32] = &mut space;
    if list.len() < one {
        return usize::MAX;
    }
    writer_with_one(a, pixels, &mut list[0..one], two, out)
}

// The short frame's writer on an output of A5, with its second list, a part of one of 8,192; a count of bytes beyond any output, and nothing filled, where more is
// asked for.
fn short_with_one(
    job: Job,
    old: &[u8],
    new: &[u8],
    picks: &[u32],
    list: &mut [i32],
    two: usize,
    out: &mut [u8],
) -> usize
    ensures { FrameSent (leb two 8192) (short_sent_fault job old.now new.now picks.now (length list.old) two (length out.old)) (short_sent_bytes job new.now picks.now) out.old out.new result }
{
    let mut space = [7i32; 8192];
    let scratch: &mut [i32] = &mut space;
    if scratch.len() < two {
        return usize::MAX;
    }
    out.fill(0xA5);
    let w = short_write::write_frame_short(job, old, new, picks, list, &mut scratch[0..two], out);
    let n = wire::count_of(w);
    let after = &scratch[..];
    crate::lines::say_written(
        wire::number_of(w),
        n,
        letter_of(list, &after[0..two]),
        app_recording::lent::hash(out),
    );
    n
}

// One call of the short frame's writer, on lists of these lengths; the bytes that it wrote.
pub fn short_call(
    job: Job,
    old: &[u8],
    new: &[u8],
    picks: &[u32],
    one: usize,
    two: usize,
    out: &mut [u8],
) -> usize
    ensures { FrameSent (pair_fits one two) (short_sent_fault job old.now new.now picks.now one two (length out.old)) (short_sent_bytes job new.now picks.now) out.old out.new result }
{
    let mut space = [7i32; 8192];
    let list: &mut [i32] = &mut space;
    if list.len() < one {
        return usize::MAX;
    }
    short_with_one(job, old, new, picks, &mut list[0..one], two, out)
}
