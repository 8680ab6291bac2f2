// A picture for people: the second picture dimmed, with the differing tiles framed, a pixel row at a time.
ghost use Rattle.std.specs.Prelude.{◌≡◌, ◌+◌, ◌*◌, ◌≤◌, length};
ghost use Rattle.wire.specs.Le.{le16};
ghost use Rattle.tile_diff.specs.Tiles.{words_of};
ghost use Rattle.tile_diff.specs.Mark.{dimmed, at_edge, shown_at, row_marked};

// Half of each of the three parts of a 5-6-5 word.
pub fn dim(word: u16) -> u16
    ensures { result ≡ dimmed word }
{
    word / 4096 * 2048 + word / 64 % 32 * 32 + word / 2 % 16
}

// Is a column (or a row) among the two outermost of its tile, in a picture of n?
fn at_edge(v: u16, n: u16) -> bool
    ensures { result ≡ at_edge v n }
{
    if v % 64 < 2 {
        return true;
    }
    if 61 < v % 64 {
        return true;
    }
    n as usize <= v as usize + 2
}

// The word that is shown at a pixel: red on the frame of a tile that differs, else the picture's, dimmed.
fn shown(row: &[u8], width: u16, height: u16, x: u16, y: u16, counts: &[u32]) -> u16
    requires { 2 * x + 2 ≤ length row.now }
    ensures { result ≡ shown_at (le16 row.now (2 * x)) width height x y counts.now }
{
    let word = wire::le16_at(row, 2 * (x as usize)) as u16;
    let k = y as usize / 64 * session::tiles_over(width) + x as usize / 64;
    if crate::count::count_at(counts, k) == 0 {
        return dim(word);
    }
    if at_edge(x, width) {
        return 0xF800;
    }
    if at_edge(y, height) {
        return 0xF800;
    }
    dim(word)
}

// Row y of the picture that is shown, from the bytes of row y of the second picture; nothing where one of them is too short.
pub fn mark_row(row: &[u8], width: u16, height: u16, y: u16, counts: &[u32], out: &mut [u16])
    ensures { out.new ≡ row_marked (words_of row.now) width height y counts.now out.old }
{
    if row.len() / 2 < width as usize {
        return;
    }
    if out.len() < width as usize {
        return;
    }
    for x in 0..width {
        out[x as usize] = shown(row, width, height, x, y, counts);
    }
}
