// Which tiles of two pictures differ, for C, under the C names: each is one call of the panel's own of that name (panel's differ.rt) and promises what that one does.
// Nothing here has a `requires`.
ghost use Rattle.tile_diff.specs.Pictures.{TilesCounted};
ghost use Rattle.panel.specs.Differ.{NextTileCall};

// Counts the differing words of each tile of two pictures of 16-bit words.
#[unsafe(no_mangle)]
pub extern "C" fn xurbalenz_count_tiles(
    width: usize,
    height: usize,
    old: &[u16],
    next: &[u16],
    counts: &mut [u32],
) -> u8
    ensures { TilesCounted width height old.now next.now counts.old counts.new result }
{
    panel::differ::xurbalenz_count_tiles(width, height, old, next, counts)
}

// The same for words of 32 bits.
#[unsafe(no_mangle)]
pub extern "C" fn xurbalenz_count_tiles_32(
    width: usize,
    height: usize,
    old: &[u32],
    next: &[u32],
    counts: &mut [u32],
) -> u8
    ensures { TilesCounted width height old.now next.now counts.old counts.new result }
{
    panel::differ::xurbalenz_count_tiles_32(width, height, old, next, counts)
}

// Tells the first tile with a count above 0, from tile `from` on: its number, its column and row, and its count, which is 0 where there is none.
#[unsafe(no_mangle)]
pub extern "C" fn xurbalenz_next_tile(
    width: usize,
    height: usize,
    counts: &[u32],
    from: usize,
    tile: &mut usize,
    x: &mut usize,
    y: &mut usize,
    n: &mut u32,
) -> u8
    ensures { NextTileCall width height counts.now from tile.new x.new y.new n.new result }
{
    panel::differ::xurbalenz_next_tile(width, height, counts, from, tile, x, y, n)
}
