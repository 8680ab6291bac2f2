// Which tiles of two pictures differ, for C: two calls of `tile_diff`, for a glass of 16 bits and for one of 32, which count, and one that tells the tiles that differ
// one after the other. A list is a pointer and its length; the answer is the number of the first fault, 0 for done. Nothing here has a `requires`.
ghost use Rattle.std.specs.Prelude.{◌≡◌};
ghost use Rattle.tile_diff.specs.Pictures.{TilesCounted};
ghost use Rattle.panel.specs.Differ.{NextTileCall};

// Counts the differing words of each tile of two pictures of 16-bit words.
#[unsafe(no_mangle)]
pub extern "C" fn xurbalenz_count_tiles(
    width: usize,
    height: usize,
    old: &[u16],
    next: &[u16],
    counts: &mut [u32],
) -> u8
    ensures { TilesCounted width height old.now next.now counts.old counts.new result }
{
    wire::number_of(tile_diff::glasses::count_tiles(width, height, old, next, counts))
}

// The same for words of 32 bits.
#[unsafe(no_mangle)]
pub extern "C" fn xurbalenz_count_tiles_32(
    width: usize,
    height: usize,
    old: &[u32],
    next: &[u32],
    counts: &mut [u32],
) -> u8
    ensures { TilesCounted width height old.now next.now counts.old counts.new result }
{
    wire::number_of(tile_diff::glasses::count_tiles(width, height, old, next, counts))
}

// Tells the first tile with a count above 0, from tile `from` on: its number, its column and row, and its count, which is 0 where there is none.
#[unsafe(no_mangle)]
pub extern "C" fn xurbalenz_next_tile(
    width: usize,
    height: usize,
    counts: &[u32],
    from: usize,
    tile: &mut usize,
    x: &mut usize,
    y: &mut usize,
    n: &mut u32,
) -> u8
    ensures { NextTileCall width height counts.now from tile.new x.new y.new n.new result }
{
    let f = tile_diff::glasses::found_from(counts, width, height, from);
    *tile = f.tile;
    *x = f.x;
    *y = f.y;
    *n = f.n;
    f.number
}
