// Document 02's request Nine: the plain decoder and the product side by side on a recording (standard input), every component read and every tile
// of its frames.
// A record of the recording is a letter and little-endian numbers of four bytes, then bytes; what is no component read and no frame is passed over.
#![tactic(auto)]

mod both;
mod tiles;

use crate::tiles::Count;
use app_recording::read::Input;
use app_text::lines::OUT;

// Numbers that nobody asks for.
fn skip(input: &mut Input, n: usize) -> Option<()> {
    for _ in 0..n {
        input.number()?;
    }
    Some(())
}

// A message that nobody asks for.
fn pass(input: &mut Input, message: &mut [u8]) -> Option<()> {
    let n = input.number()?;
    input.message(message, n)?;
    Some(())
}

// The component calls on the part of a list that is lent; a recording that asks for more than there is counts nothing.
fn component_on(c: Count, mode: usize, code: &[u8], n: usize) -> Count {
    let mut ours = [0i32; 8192];
    let mut plain = [0i32; 8192];
    match (ours.get_mut(..n), plain.get_mut(..n)) {
        (Some(a), Some(b)) => {
            crate::tiles::component(c, app_recording::read::byte_of(mode), code, a, b)
        }
        _ => c,
    }
}

// 'C': mode, list length, bytes.
fn component(c: Count, input: &mut Input, message: &mut [u8]) -> Option<Count> {
    let [mode, len, n] = input.numbers::<3>()?;
    let code = input.message(message, n)?;
    Some(component_on(c, mode, code, len))
}

// 'F': three list lengths, bytes.
fn frame(c: Count, input: &mut Input, message: &mut [u8]) -> Option<Count> {
    let [_, _, _, n] = input.numbers::<4>()?;
    let bytes = input.message(message, n)?;
    Some(crate::tiles::frame(c, bytes))
}

// 'W': mode, room, and a list run by run.
fn writer(input: &mut Input) -> Option<()> {
    let [_, _, runs] = input.numbers::<3>()?;
    skip(input, runs)?;
    skip(input, runs)
}

// 'Z': eight numbers, ten quantisers, bytes.
fn frame_writer(input: &mut Input, message: &mut [u8]) -> Option<()> {
    let mut quantisers = [0u8; 10];
    skip(input, 8)?;
    input.fill(&mut quantisers)?;
    pass(input, message)
}

// A record that is no component read and no frame, by its letter; none where it is not known, which is said, or cut.
// A letter is met in one match and kept nowhere: an enum of the kinds would only be a second match.
fn other(letter: u8, input: &mut Input, message: &mut [u8]) -> Option<()> {
    match letter {
        b'N' | b'Y' => Some(()),
        b'D' => skip(input, 1),
        b'P' => skip(input, 2),
        b'G' => skip(input, 3),
        b'R' | b'X' => skip(input, 4),
        b'H' => pass(input, message),
        b'W' => writer(input),
        b'Z' => frame_writer(input, message),
        _ => {
            app_text::lines::say(
                OUT,
                b"a record that audit does not know: the rest is not compared\n",
            );
            None
        }
    }
}

// The next record, and what was compared with it; none where there is none, or none that is whole and known.
fn record(c: Count, input: &mut Input, message: &mut [u8]) -> Option<Count> {
    match input.next()? {
        b'C' => component(c, input, message),
        b'F' => frame(c, input, message),
        letter => {
            other(letter, input, message)?;
            Some(c)
        }
    }
}

// A proved loop ends, and nothing says that an input does: the turns are counted up to a number that no run comes to.
fn run(input: &mut Input, message: &mut [u8; 1048576]) -> Count {
    let mut c = Count {
        components: 0,
        tiles: 0,
        differ: 0,
    };
    for _ in 0..u64::MAX {
        match record(c, input, message) {
            Some(more) => c = more,
            None => return c,
        }
    }
    c
}

fn main(rt: HostRuntime) {
    let mut lent = [0u8; 65536];
    let mut message = [0u8; 1048576];
    let c = run(&mut Input::new(rt.stdin(), &mut lent), &mut message);
    app_text::lines::say_number(OUT, b"", c.components);
    app_text::lines::say_number(OUT, b" components, ", c.tiles);
    if c.differ == 0 {
        app_text::lines::say(OUT, b" tiles: the same\n");
    } else {
        app_text::lines::say_number(OUT, b" tiles: ", c.differ);
        app_text::lines::say(OUT, b" differ\n");
    }
}
