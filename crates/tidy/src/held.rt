// Headers put into 01's order with what waits held in 38 lent bytes, so that a caller in C keeps it: three numbers (whether blocks wait, the first that waits, the
// second) and the store of 35. All zeros: nothing waits.
ghost use Rattle.std.specs.Prelude.{◌≡◌, ◌+◌, ◌≤◌, length};
ghost use Rattle.tidy.specs.Held.{HeldGave, held_fault, waiting_in, store_in, held_of};
ghost use Rattle.tidy.specs.Headers.{none, waiting_bytes, passed_on, waiting_after, store_after};

use crate::headers::Waiting;
use wire::Refusal;

// What waits, of 38 bytes.
fn waiting_in(held: &[u8]) -> Waiting
    requires { 3 ≤ length held.now }
    ensures { result ≡ waiting_in held.now }
{
    Waiting {
        on: held[0],
        first: held[1],
        second: held[2],
    }
}

// The three numbers stored again.
fn put_waiting_in(held: &mut [u8], w: Waiting)
    requires { length held.old ≡ 38 }
    ensures { held.new ≡ held_of w (store_in held.old) }
{
    held[0] = w.on;
    held[1] = w.first;
    held[2] = w.second;
}

// One block given, and how many bytes go on: what goes on now is in the output, what waits in the 38 bytes. Another number of them is 2.
pub fn give_held(held: &mut [u8], block: &[u8], out: &mut [u8]) -> Result<usize, Refusal>
    ensures { HeldGave (held_fault held.old (35 + length block.now) (length out.old)) (passed_on (waiting_in held.old) (store_in held.old) block.now) (held_of (waiting_after (waiting_in held.old) block.now) (store_after (waiting_in held.old) (store_in held.old) block.now)) held.old held.new out.old out.new result }
{
    if held.len() != 38 {
        return Err(Refusal::Buffer);
    }
    let w = waiting_in(held);
    let g = crate::headers::give_header(w, block, &mut held[3..], out);
    put_waiting_in(held, g.waiting);
    g.answer
}

// What waits let go: it goes on as it came, and nothing waits then.
pub fn flush_held(held: &mut [u8], out: &mut [u8]) -> Result<usize, Refusal>
    ensures { HeldGave (held_fault held.old 35 (length out.old)) (waiting_bytes (waiting_in held.old) (store_in held.old)) (held_of none (store_in held.old)) held.old held.new out.old out.new result }
{
    if held.len() != 38 {
        return Err(Refusal::Buffer);
    }
    let w = waiting_in(held);
    let g = crate::headers::flush(w, &held[3..], out);
    put_waiting_in(held, g.waiting);
    g.answer
}
