// Which tiles of two whole pictures differ, as a program has them in its memory: lent as words, of a glass of 16 bits or of 32. What is counted is request Seven's
// (specs/Pictures); nothing here that another crate calls has a `requires`.
ghost use Rattle.std.specs.Prelude.{◌≡◌, ◌*◌, ◌≤◌, length, map};
ghost use Rattle.wire.specs.Refusal.{number_of};
ghost use Rattle.tile_diff.specs.Counts.{counted_if};
ghost use Rattle.tile_diff.specs.Pictures.{tile_at, places_counted, lent_fault, tiles_fault, TilesCounted, found_of, found_from};

use crate::count::Line;
use colour::GlassWord;
use wire::{Numbered, Refusal};

// A tile that differs, with its line; n is 0 where there is none. The number is 01's. It is what `xurbalenz_next_tile` tells C, which has all five whatever they are.
#[derive(Clone, Copy)]
pub struct Found {
    pub number: u8,
    pub tile: usize,
    pub x: usize,
    pub y: usize,
    pub n: u32,
}

// What is lent, judged: the lengths of two pictures and of the counts, for so many words and tiles.
fn lent_fault(words: usize, tiles: usize, a: usize, b: usize, counts: usize) -> Result<(), Refusal>
    ensures { number_of result ≡ lent_fault words tiles a b counts }
{
    if a < words {
        return Err(Refusal::Buffer);
    }
    if b < words {
        return Err(Refusal::Buffer);
    }
    if counts < tiles {
        return Err(Refusal::Room);
    }
    Ok(())
}

// The size goes before what is lent.
fn tiles_fault(
    width: usize,
    height: usize,
    a: usize,
    b: usize,
    counts: usize,
) -> Result<(), Refusal>
    ensures { number_of result ≡ tiles_fault width height a b counts }
{
    if !session::is_size(width, height) {
        return Err(Refusal::Field);
    }
    let tiles = (width + 63) / 64 * ((height + 63) / 64);
    lent_fault(height * width, tiles, a, b, counts)
}

// The number of the tile over place i.
fn tile_at(width: usize, i: usize) -> usize
    requires { (1 ≤ width) × (width ≤ 4096) × (i ≤ 8388608) }
    ensures { result ≡ tile_at width i }
{
    i / width / 64 * ((width + 63) / 64) + i % width / 64
}

// One more for tile k, if so.
fn count_if(differ: bool, k: usize, counts: &mut [u32])
    ensures { counts.new ≡ counted_if differ k counts.old }
{
    if differ {
        crate::count::add_one(counts, k);
    }
}

// The first n words of two pictures: those that differ are added to their tiles' counts.
fn count_words<W: GlassWord>(width: usize, n: usize, a: &[W], b: &[W], counts: &mut [u32])
    requires { (1 ≤ width) × (width ≤ 4096) × (n ≤ 8388608) × (n ≤ length a.now) × (n ≤ length b.now) }
    ensures { counts.new ≡ places_counted (map W.number a.now) (map W.number b.now) width n counts.old }
{
    for i in 0..n {
        count_if(a[i] != b[i], tile_at(width, i), counts);
    }
}

// Counts the differing words of each tile of two pictures, of 16-bit or of 32-bit words.
pub fn count_tiles<W: GlassWord>(
    width: usize,
    height: usize,
    a: &[W],
    b: &[W],
    counts: &mut [u32],
) -> Result<(), Refusal>
    ensures { TilesCounted width height (map W.number a.now) (map W.number b.now) counts.old counts.new (number_of result) }
{
    tiles_fault(width, height, a.len(), b.len(), counts.len())?;
    counts.fill(0);
    count_words(width, height * width, a, b, counts);
    Ok(())
}

#[tactic(auto, unfolding(crate::specs::Pictures::found_of))]
fn found_of(next: Option<(usize, Line)>) -> Found
    ensures { result ≡ found_of next }
{
    match next {
        Some((k, line)) => Found {
            number: 0,
            tile: k,
            x: line.x,
            y: line.y,
            n: line.n,
        },
        None => Found {
            number: 0,
            tile: 0,
            x: 0,
            y: 0,
            n: 0,
        },
    }
}

// The first tile that differs, from tile `from` on, row by row.
pub fn found_from(counts: &[u32], width: usize, height: usize, from: usize) -> Found
    ensures { result ≡ found_from counts.now width height from }
{
    if session::is_size(width, height) {
        return found_of(crate::count::next_tile(counts, width as u16, height as u16, from));
    }
    Found {
        number: Refusal::Field.number(),
        tile: 0,
        x: 0,
        y: 0,
        n: 0,
    }
}
