// The records of a recording as they come off standard input: a letter, little-endian numbers of four bytes, quantiser sets, and up to three parts of bytes or
// numbers, each behind its count. What follows the letter is kept in memory: numbers and sets from its first byte on, the parts from byte 64 on, one behind the
// other. No section of document 01 is made true here.
use crate::known::Leaving;
use crate::told::Answered;
use crate::wrote::Writer;
use app_recording::read::Input;

// What a record asks for: a call that is told by a line, one that writes, another session record, something of the collector; a stream through it; another
// picture; a frame call on a message, or on what was written last; a new case.
#[derive(Clone, Copy, Debug, PartialEq, Eq)]
pub enum Kind {
    Told(Answered),
    Wrote(Writer),
    Known(Leaving),
    Stored(Stored),
    Given,
    Picture,
    Frame,
    FrameBack,
    Fresh,
}

// A fresh collector, another length of its store, a hand-over, a reset.
#[derive(Clone, Copy, Debug, PartialEq, Eq)]
pub enum Stored {
    Collector,
    Length,
    Take,
    Reset,
}

// A record in memory: what it asks for, and the end of each part.
#[derive(Clone, Copy)]
pub struct Record {
    pub kind: Kind,
    pub one: usize,
    pub two: usize,
    pub three: usize,
}

// What a letter asks for, the bytes of numbers and sets behind it, and the bytes of one thing of each part, 0 where there is no such part: a run of a list, an
// entry, a piece's length, a byte, a tile's number. None for a letter that is no record's.
fn shape_of(letter: u8) -> Option<(Kind, usize, [usize; 3])> {
    Some(match letter {
        b'C' => (Kind::Told(Answered::Component), 8, [1, 0, 0]),
        b'D' => (Kind::Told(Answered::ComponentBack), 4, [0, 0, 0]),
        b's' => (Kind::Told(Answered::Settings), 4, [1, 0, 0]),
        b'S' => (Kind::Told(Answered::SettingsBack), 4, [0, 0, 0]),
        b'a' => (Kind::Told(Answered::Caps), 0, [1, 0, 0]),
        b'd' => (Kind::Told(Answered::AckCap), 0, [1, 0, 0]),
        b'i' => (Kind::Told(Answered::Ack), 0, [1, 0, 0]),
        b'c' => (Kind::Told(Answered::Check), 8, [1, 1, 4]),
        b'p' => (Kind::Told(Answered::Plan), 12, [1, 1, 0]),
        b'W' => (Kind::Wrote(Writer::Component), 8, [8, 0, 0]),
        b'X' => (Kind::Wrote(Writer::Headers), 16, [0, 0, 0]),
        b'w' => (Kind::Wrote(Writer::Settings), 28, [0, 0, 0]),
        b'b' => (Kind::Wrote(Writer::Caps), 8, [8, 0, 0]),
        b'e' => (Kind::Wrote(Writer::AckCap), 8, [0, 0, 0]),
        b'j' => (Kind::Wrote(Writer::Ack), 40, [0, 0, 0]),
        b'Z' => (Kind::Wrote(Writer::Frame), 42, [1, 0, 0]),
        b'y' => (Kind::Wrote(Writer::FrameSets), 52, [1, 0, 0]),
        b'q' => (Kind::Wrote(Writer::Short), 52, [1, 1, 4]),
        b'R' => (Kind::Known(Leaving::Put), 16, [0, 0, 0]),
        b'T' => (Kind::Known(Leaving::Opened), 4, [0, 0, 0]),
        b'H' => (Kind::Known(Leaving::Header), 0, [1, 0, 0]),
        b'Y' => (Kind::Known(Leaving::HeadersBack), 0, [0, 0, 0]),
        b'k' => (Kind::Stored(Stored::Collector), 4, [0, 0, 0]),
        b'l' => (Kind::Stored(Stored::Length), 4, [0, 0, 0]),
        b't' => (Kind::Stored(Stored::Take), 0, [1, 0, 0]),
        b'r' => (Kind::Stored(Stored::Reset), 0, [0, 0, 0]),
        b'g' => (Kind::Given, 12, [4, 1, 0]),
        b'P' => (Kind::Picture, 12, [0, 0, 0]),
        b'F' => (Kind::Frame, 12, [1, 0, 0]),
        b'G' => (Kind::FrameBack, 12, [0, 0, 0]),
        b'N' => (Kind::Fresh, 0, [0, 0, 0]),
        _ => return None,
    })
}

// A part behind its count, if the record has one, put at a place: where it ends. None where it is cut, has more than 1,048,576 things or finds no room.
fn take_part(input: &mut Input, message: &mut [u8], at: usize, unit: usize) -> Option<usize> {
    if unit == 0 {
        return Some(at);
    }
    let count = input.number()?;
    if 1048576 < count {
        return None;
    }
    let end = at.checked_add(count.checked_mul(unit)?)?;
    input.fill(message.get_mut(at..end)?)?;
    Some(end)
}

// What stands behind a letter.
fn take_parts(input: &mut Input, message: &mut [u8], letter: u8) -> Option<Record> {
    let (kind, head, units) = shape_of(letter)?;
    input.message(message, head)?;
    let one = take_part(input, message, 64, units[0])?;
    let two = take_part(input, message, one, units[1])?;
    let three = take_part(input, message, two, units[2])?;
    Some(Record {
        kind,
        one,
        two,
        three,
    })
}

// A record is cut, asks for too much, or has a letter that is no record's.
#[derive(Clone, Copy)]
pub struct Bad;

// The next record. An end of the input between two records is the end, and so is a byte 0 there.
pub fn take(input: &mut Input, message: &mut [u8]) -> Result<Option<Record>, Bad>
    ensures { Unit }
{
    match input.next() {
        Some(0) | None => Ok(None),
        Some(letter) => Ok(Some(take_parts(input, message, letter).ok_or(Bad)?)),
    }
}

// The i-th number of a record, 0 where there is none.
pub fn figure(m: &[u8], i: usize) -> usize {
    if m.len() / 4 <= i {
        return 0;
    }
    wire::le32_at(m, 4 * i)
}

// The bytes between two places, none where they are not there.
fn between(m: &[u8], a: usize, e: usize) -> &[u8] {
    m.get(a..e).unwrap_or(&m[..0])
}

// The parts of a record.
pub fn one(m: &[u8], r: Record) -> &[u8] {
    between(m, 64, r.one)
}

pub fn two(m: &[u8], r: Record) -> &[u8] {
    between(m, r.one, r.two)
}

pub fn three(m: &[u8], r: Record) -> &[u8] {
    between(m, r.two, r.three)
}
