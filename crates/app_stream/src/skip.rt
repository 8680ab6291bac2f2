// What is longer than the collector's store is passed over by its lengths (document 02, request One: "the frame's earlier blocks plus blockLen over the store is
// 13"): a block alone up to its end, a frame up to the end of its end block, whatever blocks stand before that. The record is taken and given by value, nothing is
// gathered, and what is answered is how many bytes belong to what is passed over. specs/Skip says it byte by byte.
ghost use Rattle.std.specs.Prelude.{◌≡◌, Bool, ◌<◌, ◌+◌};
ghost use Rattle.app_stream.specs.Skip.{none, stays, passed, behind, begun, own_fault, shifted, head_skip, byte_over, goes, skip_from, left_by};

use collect::Collector;

// How many bytes of the present block are still to be passed over; the bytes of a head that waits, as one number; whether a frame goes on behind this block; how
// many bytes of the head are there. All 0 where nothing is passed over.
#[derive(Clone, Copy)]
pub struct Skip {
    pub left: usize,
    pub head: usize,
    pub inside: bool,
    pub seen: u8,
}

// The record after some bytes, and how many of them were passed over.
#[derive(Clone, Copy)]
pub struct Skipped {
    pub skip: Skip,
    pub taken: usize,
}

const IN_FRAME: u8 = 3;

pub fn nothing() -> Skip
    ensures { result ≡ none }
{
    Skip {
        left: 0,
        head: 0,
        inside: false,
        seen: 0,
    }
}

// Does a frame go on behind a block of a type?
fn frame_on(part: u8, kind: usize) -> bool
    ensures { result ≡ stays part kind }
{
    if part == IN_FRAME {
        return kind != 0xCCC5;
    }
    kind == 0xCCC4
}

// So many bytes of a block are left: at its end a frame goes on with its next block.
fn bytes_left(inside: bool, left: usize) -> Skip
    ensures { result ≡ passed inside left }
{
    if 0 < left {
        return Skip {
            left: left,
            head: 0,
            inside: inside,
            seen: 0,
        };
    }
    if inside {
        return Skip {
            left: 0,
            head: 0,
            inside: true,
            seen: 0,
        };
    }
    nothing()
}

// The bytes of a block behind its head.
fn rest_of(head: usize) -> usize
    ensures { result ≡ behind head }
{
    (head / 65536).saturating_sub(6)
}

// Behind a head that the collector refused with 13.
pub fn begin(c: Collector) -> Skip
    ensures { result ≡ begun c }
{
    bytes_left(frame_on(c.part, c.head % 65536), rest_of(c.head))
}

// What the collector says of a head by itself, however much room there is: a number, as its record has it (`refused`).
fn own_fault(head: usize) -> u8
    ensures { result ≡ own_fault head }
{
    let kind = head % 65536;
    let size = head / 65536;
    if kind < 0xCCC0 {
        return 3;
    }
    if 0xCCC7 < kind {
        return 3;
    }
    if size < 6 {
        return 4;
    }
    0
}

// The next byte of a head.
fn with_byte(head: usize, b: usize) -> usize
    requires { b < 256 }
    ensures { result ≡ shifted head b }
{
    head / 256 + b * 1099511627776
}

// So many bytes of a head were there before the last: it waits, or is complete and judged.
fn head_skip(seen: u8, head: usize) -> Skip
    ensures { result ≡ head_skip (seen + 1) head }
{
    if seen < 5 {
        return Skip {
            left: 0,
            head: head,
            inside: true,
            seen: seen + 1,
        };
    }
    if own_fault(head) == 0 {
        return bytes_left(frame_on(IN_FRAME, head % 65536), rest_of(head));
    }
    Skip {
        left: 0,
        head: head,
        inside: true,
        seen: 6,
    }
}

fn byte_over(s: Skip, b: usize) -> Skip
    requires { b < 256 }
    ensures { result ≡ byte_over s b }
{
    if s.left == 0 {
        return head_skip(s.seen, with_byte(s.head, b));
    }
    bytes_left(s.inside, s.left - 1)
}

// Is more to be passed over? Not at the end of a block alone or of a frame, and not at a head that no length can be taken from.
pub fn goes_on(s: Skip) -> bool
    ensures { result ≡ goes s }
{
    0 < s.left || s.inside && s.seen < 6
}

// Passes over what belongs to it of some bytes.
pub fn pass_over(from: Skip, bytes: &[u8]) -> Skipped
    ensures { result ≡ skip_from from 0 bytes.now }
{
    let mut s = from;
    for (at, b) in bytes.iter().enumerate() {
        if !goes_on(s) {
            return Skipped { skip: s, taken: at };
        }
        s = byte_over(s, *b as usize);
    }
    Skipped {
        skip: s,
        taken: bytes.len(),
    }
}

// How the collector goes on behind it: fresh; or at a head that cannot be passed over, refused as it would refuse it.
pub fn left_by(s: Skip) -> Collector
    ensures { result ≡ left_by s }
{
    if s.seen == 6 {
        return Collector {
            held: 0,
            end: 0,
            head: s.head,
            refused: own_fault(s.head),
            part: 0,
            seen: 6,
        };
    }
    collect::reset()
}
