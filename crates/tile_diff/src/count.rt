// The differing words of two pictures, counted by tiles, a pixel row of each at a time; and the lines of the tiles that differ, one after the other.
ghost use Rattle.std.specs.Prelude.{◌≡◌, ◌+◌, ◌*◌, ◌≤◌, length, get_or};
ghost use Rattle.wire.specs.Le.{le16};
ghost use Rattle.tile_diff.specs.Tiles.{words_of, not_same, line_of};
ghost use Rattle.tile_diff.specs.Counts.{one_more, counted_if, row_counted, next_tile};

// A line that is printed: a tile's column and row from 0, and the count of its differing words.
#[derive(Clone, Copy)]
pub struct Line {
    pub x: usize,
    pub y: usize,
    pub n: u32,
}

// One more at a place, if it is there; no count goes past the largest.
pub fn add_one(counts: &mut [u32], k: usize)
    ensures { counts.new ≡ one_more k counts.old }
{
    if k < counts.len() {
        counts[k] = counts[k].saturating_add(1);
    }
}

// A word of each picture: it counts for tile k where they differ.
fn count_word(a: &[u8], b: &[u8], x: usize, k: usize, counts: &mut [u32])
    requires { (2 * x + 2 ≤ length a.now) × (2 * x + 2 ≤ length b.now) }
    ensures { counts.new ≡ counted_if (not_same (le16 a.now (2 * x)) (le16 b.now (2 * x))) k counts.old }
{
    if wire::le16_at(a, 2 * x) != wire::le16_at(b, 2 * x) {
        add_one(counts, k);
    }
}

// The words of row y of each picture, as the file's bytes: those that differ are added to their tiles' counts. A row that is too short counts nothing.
pub fn count_row(a: &[u8], b: &[u8], width: u16, y: u16, counts: &mut [u32])
    ensures { counts.new ≡ row_counted (words_of a.now) (words_of b.now) width y counts.old }
{
    let w = width as usize;
    if a.len() / 2 < w {
        return;
    }
    if b.len() / 2 < w {
        return;
    }
    let first = y as usize / 64 * session::tiles_over(width);
    for x in 0..w {
        count_word(a, b, x, first + x / 64, counts);
    }
}

// The count of tile k, 0 past the end.
pub fn count_at(counts: &[u32], k: usize) -> u32
    ensures { result ≡ get_or counts.now k 0 }
{
    // By place, not by `get`: a 32-bit machine does not tell an `Option` of a reference apart (docs/landings/19-arm.md).
    if k < counts.len() {
        return counts[k];
    }
    0
}

// The line of tile k.
fn line_of(columns: usize, k: usize, n: u32) -> Line
    requires { 1 ≤ columns }
    ensures { result ≡ line_of columns k n }
{
    Line {
        x: k % columns,
        y: k / columns,
        n,
    }
}

// The first tile that differs, from tile `from` on, row by row: its number, and its line.
pub fn next_tile(counts: &[u32], width: u16, height: u16, from: usize) -> Option<(usize, Line)>
    ensures { result ≡ next_tile counts.now width height from }
{
    let columns = session::tiles_over(width);
    let all = columns * session::tiles_over(height);
    for k in from..all {
        let n = count_at(counts, k);
        if 0 < n {
            return Some((k, line_of(columns, k, n)));
        }
    }
    None
}
