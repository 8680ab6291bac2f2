// Header blocks put into 01's order: behind a good sync the next three wait in a store of 35 bytes until versions, channels and context are all there.
// Nothing is lost: where another block comes before that, what waits goes on as it came, and the block behind it.
ghost use Rattle.std.specs.Prelude.{◌≡◌, true, ◌++◌, ◌+◌, ◌≤◌, length};
ghost use Rattle.wire.specs.Le.{patch};
ghost use Rattle.wire.specs.Refusal.{number_of};
ghost use Rattle.tidy.specs.Headers.{kind_by, kind_of, is_sync, place_of, length_of, waiting_bytes, waits, waiting_by, waiting_after, held_on};
ghost use Rattle.tidy.specs.Headers.{passed_on, store_after, flag_of, header_fault, none, GaveOn};

use wire::Refusal;

// Whether blocks wait (behind a good sync), and which: 1 versions, 2 channels, 3 context, 0 none. Numbers and no enum: a caller in C keeps them among 38 bytes, and
// `header_fault` judges them.
#[derive(Clone, Copy)]
pub struct Waiting {
    pub on: u8,
    pub first: u8,
    pub second: u8,
}

// What giving a block came to: what waits then, and how many bytes go on.
#[derive(Clone, Copy)]
pub struct Gave {
    pub waiting: Waiting,
    pub answer: Result<usize, Refusal>,
}

// One of the three by its type and length; 0 is any other block.
fn kind_by(kind: usize, long: usize) -> u8
    ensures { result ≡ kind_by kind long }
{
    if kind == 0xCCC1 {
        if long == 10 {
            return 1;
        }
        return 0;
    }
    if kind == 0xCCC2 {
        if long == 12 {
            return 2;
        }
        return 0;
    }
    if kind == 0xCCC3 {
        if long == 13 {
            return 3;
        }
        return 0;
    }
    0
}

fn kind_of(block: &[u8]) -> u8
    ensures { result ≡ kind_of block.now }
{
    if block.len() < 2 {
        return 0;
    }
    kind_by(wire::le16_at(block, 0), block.len())
}

// A good sync: a session just opened takes this block, and no other.
fn is_sync(block: &[u8]) -> bool
    ensures { result ≡ is_sync block.now }
{
    session::take_header(session::open(0), block).is_ok()
}

// The place of each of the three in the store.
fn place_of(k: u8) -> usize
    ensures { result ≡ place_of k }
{
    if k == 1 {
        return 0;
    }
    if k == 2 {
        return 10;
    }
    22
}

fn length_of(k: u8) -> usize
    ensures { result ≡ length_of k }
{
    if k == 1 {
        return 10;
    }
    if k == 2 {
        return 12;
    }
    if k == 3 {
        return 13;
    }
    0
}

// Does a block of this kind wait?
fn is_waiting(w: Waiting, k: u8) -> bool
    ensures { result ≡ waits w k }
{
    if w.on != 1 {
        return false;
    }
    if k == 0 {
        return false;
    }
    if k == w.first {
        return false;
    }
    if k == w.second {
        return false;
    }
    true
}

fn flag(sync: bool) -> u8
    ensures { result ≡ flag_of sync }
{
    if sync {
        return 1;
    }
    0
}

// What waits after a block of this kind.
fn waiting_by(w: Waiting, k: u8, sync: bool) -> Waiting
    ensures { result ≡ waiting_by w k sync }
{
    if is_waiting(w, k) {
        if w.first == 0 {
            return Waiting {
                on: 1,
                first: k,
                second: 0,
            };
        }
        if w.second == 0 {
            return Waiting {
                on: 1,
                first: w.first,
                second: k,
            };
        }
        return Waiting {
            on: 0,
            first: 0,
            second: 0,
        };
    }
    Waiting {
        on: flag(sync),
        first: 0,
        second: 0,
    }
}

// The refusals of a call that passes on so many bytes at most.
fn header_fault(store: usize, w: Waiting, most: usize, room: usize) -> Result<(), Refusal>
    ensures { number_of result ≡ header_fault store w most room }
{
    if store != 35 {
        return Err(Refusal::Buffer);
    }
    if 3 < w.first {
        return Err(Refusal::Buffer);
    }
    if 3 < w.second {
        return Err(Refusal::Buffer);
    }
    if room < most {
        return Err(Refusal::Room);
    }
    Ok(())
}

// What waits, as it came.
fn put_waiting(w: Waiting, store: &[u8], out: &mut [u8]) -> usize
    requires { (length store.now ≡ 35) × (26 ≤ length out.old) }
    ensures { (out.new ≡ patch out.old 0 (waiting_bytes w store.now)) × (result ≡ length (waiting_bytes w store.now)) × (result ≤ 26) }
{
    let a = length_of(w.first);
    let b = length_of(w.second);
    collect::copy(out, 0, store, place_of(w.first), a);
    collect::copy(out, a, store, place_of(w.second), b);
    a + b
}

// A block that waits: into the store, and with the third all three go on.
fn hold(w: Waiting, k: u8, block: &[u8], store: &mut [u8], out: &mut [u8]) -> usize
    requires { (k ≡ kind_of block.now) × (waits w k ≡ true) × (length store.old ≡ 35) × (35 ≤ length out.old) }
    ensures { (store.new ≡ patch store.old (place_of k) block.now) × (out.new ≡ patch out.old 0 (held_on w (patch store.old (place_of k) block.now))) × (result ≡ length (held_on w (patch store.old (place_of k) block.now))) }
{
    collect::copy(store, place_of(k), block, 0, block.len());
    if w.second == 0 {
        return 0;
    }
    collect::copy(out, 0, store, 0, 35);
    35
}

// Any other block, behind what waits.
fn put_other(w: Waiting, block: &[u8], store: &[u8], out: &mut [u8]) -> usize
    requires { (length store.now ≡ 35) × (35 + length block.now ≤ length out.old) }
    ensures { (out.new ≡ patch out.old 0 (waiting_bytes w store.now ++ block.now)) × (result ≡ length (waiting_bytes w store.now ++ block.now)) }
{
    let n = put_waiting(w, store, out);
    collect::copy(out, n, block, 0, block.len());
    n + block.len()
}

// One block, for any bytes, store and output: what goes on is in the output, what waits in the store.
pub fn give_header(w: Waiting, block: &[u8], store: &mut [u8], out: &mut [u8]) -> Gave
    ensures { GaveOn (header_fault (length store.old) w (35 + length block.now) (length out.old)) (passed_on w store.old block.now) (waiting_after w block.now) w (store_after w store.old block.now) store.old store.new out.old out.new result }
{
    if let Err(refusal) = header_fault(store.len(), w, 35 + block.len(), out.len()) {
        return Gave {
            waiting: w,
            answer: Err(refusal),
        };
    }
    let k = kind_of(block);
    let next = waiting_by(w, k, is_sync(block));
    if is_waiting(w, k) {
        let n = hold(w, k, block, store, out);
        return Gave {
            waiting: next,
            answer: Ok(n),
        };
    }
    let n = put_other(w, block, store, out);
    Gave {
        waiting: next,
        answer: Ok(n),
    }
}

// What waits goes on as it came: a frame or the end is there before the third.
pub fn flush(w: Waiting, store: &[u8], out: &mut [u8]) -> Gave
    ensures { GaveOn (header_fault (length store.now) w 35 (length out.old)) (waiting_bytes w store.now) none w store.now store.now store.now out.old out.new result }
{
    if let Err(refusal) = header_fault(store.len(), w, 35, out.len()) {
        return Gave {
            waiting: w,
            answer: Err(refusal),
        };
    }
    let n = put_waiting(w, store, out);
    let nothing = Waiting {
        on: 0,
        first: 0,
        second: 0,
    };
    Gave {
        waiting: nothing,
        answer: Ok(n),
    }
}
