// The lines of header calls and frame calls: 01's number, its values, the record, a letter for the work lists, a hash of the lent memory. No section
// of document 01 is made true here; the expected output of the recording has the same lines.
use app_text::lines::OUT;
use session::Session;

// Two numbers, with a blank between them.
fn say_two(text: &[u8], a: u64, b: u64) {
    app_text::lines::say_number(OUT, text, a);
    app_text::lines::say_number(OUT, b" ", b);
}

// The record, behind a blank.
fn say_record(s: Session) {
    say_two(b" ", s.headers as u64, s.width as u64);
    say_two(b" ", s.height as u64, s.mode as u64);
}

// A letter, behind a blank.
fn say_letter(letter: u8) {
    app_text::lines::say(OUT, &[b' ', letter]);
}

// A hash, behind a blank, and the end of the line.
fn end_with(h: u64) {
    app_text::lines::say_hex(OUT, b" ", h, 16);
    app_text::lines::say(OUT, b"\n");
}

pub fn say_header(number: u8, s: Session)
    ensures { Unit }
{
    app_text::lines::say_number(OUT, b"", number as u64);
    say_record(s);
    app_text::lines::say(OUT, b"\n");
}

pub fn say_frame(number: u8, tiles: usize, letter: u8, s: Session, h: u64)
    ensures { Unit }
{
    say_two(b"", number as u64, tiles as u64);
    say_letter(letter);
    say_record(s);
    end_with(h);
}

// A call of a part that the collector handed on: its letter and its number, with a comma in front of all but the first.
fn say_short(before: u64, letter: u8, number: u8) {
    if 0 < before {
        app_text::lines::say(OUT, b",");
    }
    app_text::lines::say(OUT, &[letter]);
    app_text::lines::say_number(OUT, b"", number as u64);
}

pub fn say_short_header(before: u64, number: u8)
    ensures { Unit }
{
    say_short(before, b'h', number);
}

pub fn say_short_frame(before: u64, number: u8, tiles: usize)
    ensures { Unit }
{
    say_short(before, b'f', number);
    app_text::lines::say_number(OUT, b":", tiles as u64);
}

// The numbers of four header calls, and the record after the last.
pub fn say_fourfold(one: u8, two: u8, three: u8, four: u8, s: Session)
    ensures { Unit }
{
    say_two(b"", one as u64, two as u64);
    say_two(b" ", three as u64, four as u64);
    say_record(s);
    app_text::lines::say(OUT, b"\n");
}
