// The tiles of a recorded frame, found by 01's places alone: whether the frame is a good one or not, each tile whose three codes lie in the message is
// handed to both decoders. No section of document 01 is made true here.
ghost use Rattle.std.specs.Prelude.{◌<◌, ◌≤◌, length};

use bands::Quant;

// What was compared so far, and how much of it differed.
#[derive(Clone, Copy)]
pub struct Count {
    pub components: u64,
    pub tiles: u64,
    pub differ: u64,
}

fn more(n: u64, by: bool) -> u64 {
    if by && n < 1000000000000 {
        return n + 1;
    }
    n
}

// A byte of a message, 0 past its end; two and four of them, low byte first.
fn byte(m: &[u8], at: usize) -> usize
    ensures { result < 256 }
{
    match m.get(at) {
        Some(b) => usize::from(*b),
        None => 0,
    }
}

fn two(m: &[u8], at: usize) -> usize
    requires { at < 1099511627776 }
    ensures { result < 65536 }
{
    byte(m, at) + 256 * byte(m, at + 1)
}

fn four(m: &[u8], at: usize) -> usize
    requires { at < 1073741824 }
    ensures { result < 4294967296 }
{
    two(m, at) + 65536 * two(m, at + 2)
}

// The quantiser set whose index stands at a place; one that is not there is all zeros, and no tile is read with it.
fn quant(m: &[u8], sets: usize, at: usize) -> Quant
    requires { sets < 8589934592 }
{
    let place = sets + 5 * byte(m, at);
    if m.len() < place + 5 {
        return Quant { v: [0; 10] };
    }
    bands::quant_at(m, place)
}

// One component call more.
pub fn component(c: Count, mode: u8, code: &[u8], ours: &mut [i32], plain: &mut [i32]) -> Count
    ensures { Unit }
{
    let same = crate::both::component_same(mode, code, ours, plain);
    Count {
        components: more(c.components, true),
        tiles: c.tiles,
        differ: more(c.differ, !same),
    }
}

fn component_alone(c: Count, mode: u8, code: &[u8]) -> Count {
    let mut ours = [0i32; 4096];
    let mut plain = [0i32; 4096];
    component(c, mode, code, &mut ours, &mut plain)
}

// The tile whose three codes end at these places: its three components, each by itself, and the three together.
fn tile_of(c: Count, m: &[u8], mode: u8, q: Sets, i: usize, j: usize, k: usize, e: usize) -> Count
    requires { (i ≤ j) × (j ≤ k) × (k ≤ e) × (e ≤ length m.now) }
{
    let one = component_alone(c, mode, &m[i..j]);
    let second = component_alone(one, mode, &m[j..k]);
    let three = component_alone(second, mode, &m[k..e]);
    let n = crate::both::tile_same(mode, q.y, q.cb, q.cr, &m[i..j], &m[j..k], &m[k..e]);
    Count {
        components: three.components,
        tiles: more(three.tiles, true),
        differ: more(three.differ, n == 255),
    }
}

// The three quantiser sets of a tile.
#[derive(Clone, Copy)]
struct Sets {
    y: Quant,
    cb: Quant,
    cr: Quant,
}

fn sets_of(m: &[u8], sets: usize, at: usize) -> Sets
    requires { (sets < 8589934592) × (at < 1099511627) }
{
    Sets {
        y: quant(m, sets, at + 6),
        cb: quant(m, sets, at + 7),
        cr: quant(m, sets, at + 8),
    }
}

// The tile at a place, if it lies in the message.
fn tile(c: Count, m: &[u8], mode: u8, sets: usize, at: usize) -> Count
    requires { (sets < 8589934592) × (at < 1099511627) }
{
    let q = sets_of(m, sets, at);
    let i = at + 19;
    let j = i + two(m, at + 13);
    let k = j + two(m, at + 15);
    let e = k + two(m, at + 17);
    if m.len() < e {
        return c;
    }
    tile_of(c, m, mode, q, i, j, k, e)
}

// The place behind the tile at a place.
fn behind(m: &[u8], at: usize) -> usize
    requires { at < 1099511627 }
    ensures { result < 1099911627 }
{
    at + 19 + two(m, at + 13) + two(m, at + 15) + two(m, at + 17)
}

fn tiles(c: Count, m: &[u8], mode: u8, sets: usize, first: usize, n: usize) -> Count
    requires { (sets < 8589934592) × (length m.now ≤ 1048576) }
{
    let mut count = c;
    let mut at = first;
    for _ in 0..n {
        if m.len() <= at {
            return count;
        }
        count = tile(count, m, mode, sets, at);
        at = behind(m, at);
    }
    count
}

// All tiles of a frame: the region behind the 14 bytes of the begin block, the tileset behind the region, its quantisers behind 22 bytes of it.
pub fn frame(c: Count, m: &[u8]) -> Count
    ensures { Unit }
{
    if 1048576 < m.len() {
        return c;
    }
    let set = 14 + four(m, 16);
    let mode = ((two(m, set + 12) >> 10) % 16) as u8;
    let sets = set + 22;
    tiles(
        c,
        m,
        mode,
        sets,
        sets + 5 * byte(m, set + 14),
        two(m, set + 16),
    )
}
