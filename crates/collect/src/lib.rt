// Request One of document 02, "Frames as the card hands them over": the collector, which gathers the bytes of a network card in a lent store and hands on
// whole header blocks and whole frames. The record is taken and given by value; what is handed on is the store's first bytes.
#![tactic(auto)]

ghost use Rattle.std.specs.Prelude.{◌≡◌, ℕ, ◌+◌, ◌≤◌, ◌<◌, ◌^◌, List, length, take, drop};
ghost use Rattle.wire.specs.Le.{patch};
ghost use Rattle.wire.specs.Refusal.{number_of};
ghost use Rattle.collect.specs.Collect.{fresh, gathering, head_fault, part_after, state, took, settled, head_done, between, refusal_of, made_waiting, may_end, made_gathering, collector_made, collector_fault, said, goes_on, walk, collect_of};
ghost use Rattle.collect.specs.laws.Code.{Turned};

use wire::{Numbered, Refusal, number_of};

// What is kept from call to call, beside the store: how many of its bytes are gathered; where the block under way ends (0: between blocks); the bytes of a
// head that waits, as one number; the refusal (0: none); what is gathered (the five numbers below); how many bytes of the head are there. All 0 when fresh.
// Laid out as C does, for the edge: a caller lends any bytes, so `refused`, `part` and `seen` are numbers there, which `collector_fault` judges.
#[repr(C)]
#[derive(Clone, Copy)]
pub struct Collector {
    pub held: usize,
    pub end: usize,
    pub head: usize,
    pub refused: u8,
    pub part: u8,
    pub seen: u8,
}

// What a call comes to: it waits for more; or the store's first bytes go to the header call, or to the frame call; or it refuses. Four ways of one kind, as
// `Step` of specs/Collect has them, and no Result.
#[derive(Clone, Copy)]
pub enum Collected {
    More,
    Header(usize),
    Frame(usize),
    Refused(Refusal),
}

// A call's answer: the record after it, how many bytes it took, and what it came to.
#[derive(Clone, Copy)]
pub struct Took {
    pub collector: Collector,
    pub taken: usize,
    pub answer: Collected,
}

// Nothing is gathered yet; a block for the header call; a block alone for the frame call; a frame; a frame, in its end block. Numbers and no enum: they
// are the record's `part`, a byte of C's.
const OUTSIDE: u8 = 0;

const TO_HEADER: u8 = 1;

const TO_FRAME: u8 = 2;

const IN_FRAME: u8 = 3;

const AT_END: u8 = 4;

// A fresh collector; also the reset, which throws away what was gathered.
pub fn reset() -> Collector
    ensures { result ≡ fresh }
{
    Collector {
        held: 0,
        end: 0,
        head: 0,
        refused: 0,
        part: OUTSIDE,
        seen: 0,
    }
}

// What the next byte of a head counts.
fn weight(seen: u8) -> usize
    requires { seen ≤ 6 }
    ensures { (result ≡ 256 ^ seen) × (result ≤ 281474976710656) }
{
    match seen {
        0 => 1,
        1 => 256,
        2 => 65536,
        3 => 16777216,
        4 => 4294967296,
        5 => 1099511627776,
        _ => 281474976710656,
    }
}

// The first fault of a head that is complete, where so many bytes are gathered.
fn head_fault(held: usize, head: usize, room: usize) -> Result<(), Refusal>
    requires { held ≤ room }
    ensures { number_of result ≡ head_fault held head room }
{
    let kind = head % 65536;
    let size = head / 65536;
    if kind < 0xCCC0 {
        return Err(Refusal::Kind);
    }
    if 0xCCC7 < kind {
        return Err(Refusal::Kind);
    }
    if size < 6 {
        return Err(Refusal::Length);
    }
    if room - held < size {
        return Err(Refusal::Room);
    }
    Ok(())
}

// What a block of a type belongs to.
fn part_after(part: u8, kind: usize) -> u8
    ensures { result ≡ part_after part kind }
{
    if part == IN_FRAME {
        if kind == 0xCCC5 {
            return AT_END;
        }
        return IN_FRAME;
    }
    if kind == 0xCCC4 {
        return IN_FRAME;
    }
    if kind <= 0xCCC3 {
        return TO_HEADER;
    }
    TO_FRAME
}

// The refusal that belongs to so many bytes of a head.
fn refusal_of(seen: u8, head: usize) -> Result<(), Refusal>
    ensures { number_of result ≡ refusal_of seen head }
{
    if seen < 6 {
        return Ok(());
    }
    head_fault(0, head, 0)
}

fn is_between(part: u8, held: usize) -> bool
    ensures { result ≡ between part held }
{
    if part == OUTSIDE {
        return held == 0;
    }
    if part != IN_FRAME {
        return false;
    }
    6 <= held
}

fn is_waiting(c: Collector) -> bool
    ensures { result ≡ made_waiting c }
{
    if 6 < c.seen {
        return false;
    }
    if weight(c.seen) <= c.head {
        return false;
    }
    if c.refused != number_of(refusal_of(c.seen, c.head)) {
        return false;
    }
    is_between(c.part, c.held)
}

fn may_end(part: u8, held: usize, end: usize) -> bool
    requires { held < end }
    ensures { result ≡ may_end part held end }
{
    if part == IN_FRAME {
        if held < 12 {
            return end < 4294967296;
        }
        return end - held < 4294967290;
    }
    if part == AT_END {
        if held < 12 {
            return false;
        }
        return end - held < 4294967290;
    }
    if part < TO_HEADER {
        return false;
    }
    if TO_FRAME < part {
        return false;
    }
    end < 4294967296
}

fn is_gathering(c: Collector) -> bool
    ensures { result ≡ made_gathering c }
{
    if c.refused != 0 {
        return false;
    }
    if c.seen != 0 {
        return false;
    }
    if c.head != 0 {
        return false;
    }
    if c.held < 6 {
        return false;
    }
    if c.end <= c.held {
        return false;
    }
    may_end(c.part, c.held, c.end)
}

// Could calls have made this record?
fn is_made(c: Collector) -> bool
    ensures { result ≡ collector_made c }
{
    if c.end == 0 {
        return is_waiting(c);
    }
    is_gathering(c)
}

// Why a call takes nothing. The refusal that a record keeps is that of the head beside it.
fn collector_fault(c: Collector, room: usize) -> Result<(), Refusal>
    ensures { number_of result ≡ collector_fault c room }
{
    if !is_made(c) {
        return Err(Refusal::Order);
    }
    refusal_of(c.seen, c.head)?;
    if room < c.held {
        return Err(Refusal::Buffer);
    }
    if room < c.end {
        return Err(Refusal::Buffer);
    }
    Ok(())
}

// In a block that ends at a place; between the blocks of a frame where the end is 0.
fn in_block(part: u8, held: usize, end: usize) -> Collector
    ensures { result ≡ gathering part held end }
{
    Collector {
        held,
        end,
        head: 0,
        refused: 0,
        part,
        seen: 0,
    }
}

// Bytes of a block are in, and n in all are taken.
fn settle(part: u8, held: usize, end: usize, n: usize) -> Took
    ensures { (store : List ℕ) → said result store ≡ took n (settled part held end store) }
{
    if held < end {
        let c = in_block(part, held, end);
        return Took {
            collector: c,
            taken: n,
            answer: Collected::More,
        };
    }
    if part == IN_FRAME {
        let c = in_block(part, held, 0);
        return Took {
            collector: c,
            taken: n,
            answer: Collected::More,
        };
    }
    let c = reset();
    if part == TO_HEADER {
        return Took {
            collector: c,
            taken: n,
            answer: Collected::Header(held),
        };
    }
    Took {
        collector: c,
        taken: n,
        answer: Collected::Frame(held),
    }
}

// A head is complete, and n bytes in all are taken: a good one goes into the store.
fn judge(part: u8, held: usize, head: usize, n: usize, store: &mut [u8]) -> Took
    requires { held ≤ length store.old }
    ensures { said result store.new ≡ took n (head_done (head_fault held head (length store.old)) part held head store.old) }
{
    if let Err(refusal) = head_fault(held, head, store.len()) {
        let number = refusal.number();
        let c = Collector {
            held,
            end: 0,
            head,
            refused: number,
            part,
            seen: 6,
        };
        return Took {
            collector: c,
            taken: n,
            answer: Collected::Refused(refusal),
        };
    }
    wire::put16_at(store, held, head % 65536);
    wire::put32_at(store, held + 2, head / 65536);
    settle(
        part_after(part, head % 65536),
        held + 6,
        held + head / 65536,
        n,
    )
}

// n bytes into the store, from a place to a place. Byte by byte, which is made a `memcpy`: `copy_from_slice` would ask who links the archive for a `memmove`, and it
// asks for `memcpy` and `memset` alone.
pub fn copy(store: &mut [u8], at: usize, bytes: &[u8], from: usize, n: usize)
    requires { (at + n ≤ length store.old) × (from + n ≤ length bytes.now) }
    ensures { store.new ≡ patch store.old at (take n (drop from bytes.now)) }
{
    for i in 0..n {
        store[at + i] = bytes[from + i];
    }
}

// The next byte of a head.
fn head_at(c: Collector, bytes: &[u8], at: usize, store: &mut [u8]) -> Took
    requires { (0 ≡ collector_fault c (length store.old)) × ((at < length bytes.now) × (c.end ≡ 0)) }
    ensures { Turned (state c store.old) bytes.now at (said result store.new) }
{
    let head = c.head + weight(c.seen) * wire::byte_at(bytes, at);
    if c.seen < 5 {
        let w = Collector {
            held: c.held,
            end: 0,
            head,
            refused: 0,
            part: c.part,
            seen: c.seen + 1,
        };
        return Took {
            collector: w,
            taken: at + 1,
            answer: Collected::More,
        };
    }
    judge(c.part, c.held, head, at + 1, store)
}

// A head of which all six bytes are there.
fn whole_head_at(c: Collector, bytes: &[u8], at: usize, store: &mut [u8]) -> Took
    requires { (0 ≡ collector_fault c (length store.old)) × ((at + 6 ≤ length bytes.now) × ((c.end ≡ 0) × (c.seen ≡ 0))) }
    ensures { Turned (state c store.old) bytes.now at (said result store.new) }
{
    let head = wire::le16_at(bytes, at) + 65536 * wire::le32_at(bytes, at + 2);
    judge(c.part, c.held, head, at + 6, store)
}

// The next bytes of a block, as many as are there.
fn block_at(c: Collector, bytes: &[u8], at: usize, store: &mut [u8]) -> Took
    requires { (0 ≡ collector_fault c (length store.old)) × ((at < length bytes.now) × (c.end ≡ 0 → ⊥)) }
    ensures { Turned (state c store.old) bytes.now at (said result store.new) }
{
    let n = (c.end - c.held).min(bytes.len() - at);
    copy(store, c.held, bytes, at, n);
    settle(c.part, c.held + n, c.end, at + n)
}

fn turn_at(c: Collector, bytes: &[u8], at: usize, store: &mut [u8]) -> Took
    requires { (0 ≡ collector_fault c (length store.old)) × (at < length bytes.now) }
    ensures { Turned (state c store.old) bytes.now at (said result store.new) }
{
    if c.end != 0 {
        return block_at(c, bytes, at, store);
    }
    if c.seen == 0 {
        if 6 <= bytes.len() - at {
            return whole_head_at(c, bytes, at, store);
        }
    }
    head_at(c, bytes, at, store)
}

fn goes_on(a: Collected) -> bool
    ensures { result ≡ goes_on a }
{
    matches!(a, Collected::More)
}

// The bytes up to the end of the first part that is whole, or of the first head that is refused.
fn walk_bytes(from: Collector, bytes: &[u8], store: &mut [u8]) -> Took
    requires { 0 ≡ collector_fault from (length store.old) }
    ensures { said result store.new ≡ walk (state from store.old) 0 bytes.now }
{
    let mut c = from;
    let mut at: usize = 0;
    // A turn takes as many bytes as belong to what is under way: there is no range of turns, and no slice of equal parts.
    while at < bytes.len() {
        let t = turn_at(c, bytes, at, store);
        if !goes_on(t.answer) {
            return t;
        }
        c = t.collector;
        at = t.taken;
    }
    Took {
        collector: c,
        taken: at,
        answer: Collected::More,
    }
}

// One hand-over: what the card gives goes into the store, up to the end of the first part that is whole. The rest is given again.
pub fn collect(c: Collector, bytes: &[u8], store: &mut [u8]) -> Took
    ensures { said result store.new ≡ collect_of (state c store.old) bytes.now }
{
    if let Err(refusal) = collector_fault(c, store.len()) {
        return Took {
            collector: c,
            taken: 0,
            answer: Collected::Refused(refusal),
        };
    }
    walk_bytes(c, bytes, store)
}
