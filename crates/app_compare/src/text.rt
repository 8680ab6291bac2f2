// The tool's answer as a text: "bad", "size", or a line "x y n" for each tile that differs, row by row, and "tiles t". It is made in memory that is lent, and
// printed at once.
ghost use Rattle.std.specs.Prelude.{◌≡◌, [], ◌∷◌, ◌++◌, ◌+◌, ◌≤◌, length};
ghost use Rattle.tile_diff.specs.Text.{decimal_of, line_text, tiles_text, text_of};
ghost use Rattle.tile_diff.specs.declared.pic.Verdict.TheVariants.{Tiles};
ghost use Rattle.app_compare.specs.Text.{Texted, Put, Lined, lines_in, tiles_in};

use tile_diff::count::Line;
use tile_diff::pic::Verdict;

// How many bytes there are now, and how many lines.
#[derive(Clone, Copy)]
struct Lines {
    at: usize,
    t: usize,
}

// Bytes behind those that are there: how many there are then.
fn put(out: &mut [u8], at: usize, text: &[u8]) -> usize
    requires { at + length text.now ≤ length out.old }
    ensures { Put out.old out.new at result text.now }
{
    let end = at + text.len();
    out[at..end].copy_from_slice(text);
    end
}

fn put_number(out: &mut [u8], at: usize, n: u64) -> usize
    requires { at + 20 ≤ length out.old }
    ensures { Put out.old out.new at result (decimal_of n) × (result ≤ at + 20) }
{
    let mut digits = [0u8; 20];
    let k = io::decimal(n, &mut digits);
    put(out, at, &digits[..k])
}

// A number, and a byte behind it.
fn put_field(out: &mut [u8], at: usize, n: u64, behind: u8) -> usize
    requires { at + 21 ≤ length out.old }
    ensures { Put out.old out.new at result (decimal_of n ++ (behind ∷ [])) × (result ≤ at + 21) }
{
    let end = put_number(out, at, n);
    let last = [behind];
    put(out, end, &last)
}

fn put_line(out: &mut [u8], at: usize, l: Line) -> usize
    requires { at + 63 ≤ length out.old }
    ensures { Put out.old out.new at result (line_text l) × (result ≤ at + 63) }
{
    let x = put_field(out, at, l.x as u64, b' ');
    let y = put_field(out, x, l.y as u64, b' ');
    put_field(out, y, l.n as u64, b'\n')
}

// A line for each tile that differs.
fn put_lines(counts: &[u32], width: u16, height: u16, out: &mut [u8]) -> Lines
    requires { (tiles_in width height ≤ 2048) × (length out.old ≡ 131072) }
    ensures { Lined (lines_in counts.now width height) out.new result.at result.t }
{
    let mut at: usize = 0;
    let mut t: usize = 0;
    let mut k: usize = 0;
    while let Some((j, l)) = tile_diff::count::next_tile(counts, width, height, k) {
        at = put_line(out, at, l);
        t += 1;
        k = j + 1;
    }
    Lines { at, t }
}

// The last line.
fn put_tiles(out: &mut [u8], at: usize, t: usize) -> usize
    requires { at + 27 ≤ length out.old }
    ensures { Put out.old out.new at result (tiles_text t) }
{
    let n = put(out, at, b"tiles ");
    put_field(out, n, t as u64, b'\n')
}

fn put_all(counts: &[u32], width: u16, height: u16, out: &mut [u8]) -> usize
    requires { (tiles_in width height ≤ 2048) × (length out.old ≡ 131072) }
    ensures { Texted out.new result (text_of Tiles (lines_in counts.now width height)) }
{
    let l = put_lines(counts, width, height, out);
    put_tiles(out, l.at, l.t)
}

// What two files give.
pub fn text(v: Verdict, counts: &[u32], width: u16, height: u16, out: &mut [u8]) -> usize
    requires { (v ≡ Tiles → tiles_in width height ≤ 2048) × (length out.old ≡ 131072) }
    ensures { Texted out.new result (text_of v (lines_in counts.now width height)) }
{
    match v {
        Verdict::Bad => put(out, 0, b"bad\n"),
        Verdict::Size => put(out, 0, b"size\n"),
        Verdict::Tiles => put_all(counts, width, height, out),
    }
}
