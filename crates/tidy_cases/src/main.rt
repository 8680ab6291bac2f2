// Makes the calls of a recording (standard input) on the filter: codes ('K'), frames ('I', and 'J' on what was written last), header blocks ('U') and what
// waits of them ('V'), and prints one line for each: the number and its values, a letter for the work list, a hash of the lent memory. A record is a letter and
// little-endian numbers of four bytes, then bytes behind their count; 'N' starts a case. Lent lists hold 7 and lent output A5. No section of document 01 is made true here.
#![tactic(auto)]

mod calls;

use crate::calls::Asked;
use app_recording::read::{Input, byte_of, word_of};

// Six numbers: sender, width, height, mode, the work list's length and the room.
fn asked(input: &mut Input) -> Option<Asked> {
    let [sender, width, height, mode, list, room] = input.numbers::<6>()?;
    Some(Asked {
        sender: byte_of(sender),
        width: word_of(width),
        height: word_of(height),
        mode: byte_of(mode),
        list,
        room,
    })
}

// 'K': sender, mode, bytes.
fn code(input: &mut Input, message: &mut [u8], out: &mut [u8]) -> Option<usize> {
    let [sender, mode, n] = input.numbers::<3>()?;
    let bytes = input.message(message, n)?;
    crate::calls::code(byte_of(sender), byte_of(mode), bytes, out);
    Some(0)
}

// 'I': the six, and bytes.
fn frame(input: &mut Input, message: &mut [u8], out: &mut [u8]) -> Option<usize> {
    let a = asked(input)?;
    let n = input.number()?;
    let bytes = input.message(message, n)?;
    Some(crate::calls::frame(a, bytes, out))
}

// 'J': the six, on what was written last, which is taken out of the output first.
fn again(input: &mut Input, message: &mut [u8], out: &mut [u8], written: usize) -> Option<usize> {
    let a = asked(input)?;
    let n = crate::calls::kept(app_text::loading::first(out, written), message);
    let bytes = app_text::loading::first(message, n);
    Some(crate::calls::frame(a, bytes, out))
}

// 'U': room, bytes.
fn header(input: &mut Input, message: &mut [u8], held: &mut [u8], out: &mut [u8]) -> Option<usize> {
    let [room, n] = input.numbers::<2>()?;
    let block = input.message(message, n)?;
    crate::calls::header(held, block, out, room);
    Some(0)
}

// 'V': room.
fn flush(input: &mut Input, held: &mut [u8], out: &mut [u8]) -> Option<usize> {
    let room = input.number()?;
    crate::calls::flush(held, out, room);
    Some(0)
}

// The next record, by its letter: how many bytes were written last. None at the input's end and where a record is cut or not known, which is said.
// A letter is met in this match and kept nowhere: an enum of the kinds would only be a second one.
fn record(
    input: &mut Input,
    message: &mut [u8],
    held: &mut [u8],
    out: &mut [u8],
    written: usize,
) -> Option<usize> {
    match input.next()? {
        b'N' => {
            held.fill(0);
            Some(0)
        }
        b'K' => code(input, message, out),
        b'I' => frame(input, message, out),
        b'J' => again(input, message, out, written),
        b'U' => header(input, message, held, out),
        b'V' => flush(input, held, out),
        _ => {
            app_text::lines::say(
                app_text::lines::OUT,
                b"a record that is not known: the rest is not read\n",
            );
            None
        }
    }
}

// A proved loop ends, and nothing says that an input does: the turns are counted up to a number that no run comes to.
fn run(input: &mut Input, message: &mut [u8; 65536], held: &mut [u8], out: &mut [u8; 65536]) {
    let mut written = 0;
    for _ in 0..u64::MAX {
        match record(input, message, held, out, written) {
            Some(n) => written = n,
            None => return,
        }
    }
}

fn main(rt: HostRuntime) {
    let mut lent = [0u8; 65536];
    let mut message = [0u8; 65536];
    let mut held = [0u8; 38];
    let mut out = [0u8; 65536];
    run(
        &mut Input::new(rt.stdin(), &mut lent),
        &mut message,
        &mut held,
        &mut out,
    );
}
