// The filter's calls on lent memory, each with its line.
ghost use Rattle.std.specs.Prelude.{length, ◌≤◌, ◌≡◌};

use app_text::lines::OUT;
use wire::Refusal;

// What a record asks of the frame's call.
#[derive(Clone, Copy)]
pub struct Asked {
    pub sender: u8,
    pub width: u16,
    pub height: u16,
    pub mode: u8,
    pub list: usize,
    pub room: usize,
}

fn say_next(n: u64) {
    app_text::lines::say_number(OUT, b" ", n);
}

// A hash behind a blank, and the end of the line.
fn end_with(h: u64) {
    app_text::lines::say_hex(OUT, b" ", h, 16);
    app_text::lines::say(OUT, b"\n");
}

// The line of a code: whether it changed, the bytes that go on, and their hash.
fn say_code(changed: bool, goes: &[u8]) {
    app_text::lines::say_number(OUT, b"", u64::from(changed));
    say_next(goes.len() as u64);
    end_with(app_recording::lent::hash(goes));
}

// A code tidied, with room for what came.
fn code_on(sender: u8, mode: u8, s: &[u8], list: &mut [i32; 4096], out: &mut [u8]) -> usize
    requires { length s.now ≤ length out.old }
{
    tidy_code::put_tidied(sender, mode, s, list, out, 0)
}

pub fn code(sender: u8, mode: u8, s: &[u8], out: &mut [u8]) {
    let mut list = [7i32; 4096];
    if out.len() < s.len() {
        return;
    }
    let n = code_on(sender, mode, s, &mut list, out);
    let goes = app_text::loading::first(out, n);
    say_code(goes != s, goes);
}

// The state of a work list: none, untouched, zeros.
fn letter_of(list: &[i32]) -> u8 {
    if list.is_empty() {
        return b'-';
    }
    if app_recording::lent::all_are(list, 7) {
        return b'u';
    }
    if app_recording::lent::all_are(list, 0) {
        return b'z';
    }
    b'?'
}

// A frame tidied on the lists lent; how many bytes were written.
fn frame_on(a: Asked, message: &[u8], list: &mut [i32], out: &mut [u8]) -> usize {
    out.fill(0xA5);
    let s = session::of_numbers(4, a.width, a.height, a.mode);
    let t = tidy::frames::tidy_frame(a.sender, s, message, list, out);
    let on = tidy::frames::told(t);
    app_text::lines::say_number(OUT, b"", wire::number_of(t) as u64);
    say_next(on.size as u64);
    say_next(on.cut as u64);
    app_text::lines::say(OUT, b" ");
    app_text::lines::say(OUT, &[letter_of(list)]);
    end_with(app_recording::lent::hash(out));
    on.size
}

pub fn frame(a: Asked, message: &[u8], out: &mut [u8]) -> usize {
    let mut space = [7i32; 8192];
    match (space.get_mut(..a.list), out.get_mut(..a.room)) {
        (Some(list), Some(part)) => frame_on(a, message, list, part),
        _ => 0,
    }
}

// Bytes kept elsewhere, as many as there is room for; how many.
pub fn kept(from: &[u8], to: &mut [u8]) -> usize {
    match to.get_mut(..from.len()) {
        Some(part) => {
            part.copy_from_slice(from);
            from.len()
        }
        None => 0,
    }
}

fn say_passed(p: Result<usize, Refusal>, out: &[u8]) {
    app_text::lines::say_number(OUT, b"", wire::number_of(p) as u64);
    say_next(wire::count_of(p) as u64);
    end_with(app_recording::lent::hash(out));
}

fn header_on(held: &mut [u8], block: &[u8], out: &mut [u8]) {
    out.fill(0xA5);
    let p = tidy::held::give_held(held, block, out);
    say_passed(p, out);
}

pub fn header(held: &mut [u8], block: &[u8], out: &mut [u8], room: usize) {
    if let Some(part) = out.get_mut(..room) {
        header_on(held, block, part);
    }
}

fn flush_on(held: &mut [u8], out: &mut [u8]) {
    out.fill(0xA5);
    let p = tidy::held::flush_held(held, out);
    say_passed(p, out);
}

pub fn flush(held: &mut [u8], out: &mut [u8], room: usize) {
    if let Some(part) = out.get_mut(..room) {
        flush_on(held, part);
    }
}
