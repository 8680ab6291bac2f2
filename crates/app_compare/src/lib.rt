// The compare tool of document 02's request Seven over two files: they are read one pixel row of each at a time (`files`), what they give is made a text
// (`text`), and the picture for people is written (`shown`). What is counted, judged and listed stands in `tile_diff`. No customer links it.
#![tactic(auto)]

mod files;
mod shown;
mod text;

ghost use Rattle.std.specs.Prelude.{◌≡◌, ◌≤◌, length};
ghost use Rattle.tile_diff.specs.Request.{no_counts};
ghost use Rattle.tile_diff.specs.declared.pic.Verdict.TheVariants.{Tiles};
ghost use Rattle.app_text.specs.First.{first_of};
ghost use Rattle.app_compare.specs.Files.{Answered};

use app_text::lines::OUT;
use std::fs::File;
use tile_diff::pic::Verdict;

// The picture for people, where there are tiles to list, to the file that argument i names, if any.
fn show(
    rt: &HostRuntime,
    v: Verdict,
    i: Option<usize>,
    file: &Option<File>,
    width: u16,
    height: u16,
    counts: &[u32],
)
    requires { v ≡ Tiles → width ≤ 4096 }
{
    if let (Verdict::Tiles, Some(i)) = (v, i) {
        crate::shown::bmp_out(rt, i, file, width, height, counts);
    }
}

// What the files of two names give, as a text: how many bytes it has. The picture for people, where it is wanted, is written on the way.
fn answer(
    rt: &HostRuntime,
    a: &[u8],
    b: &[u8],
    i: Option<usize>,
    counts: &mut [u32],
    out: &mut [u8],
) -> usize
    requires { (counts.old ≡ no_counts) × (length out.old ≡ 131072) }
    ensures { Answered a.now b.now (first_of out.new result) }
{
    let first = crate::files::open(rt, a);
    let second = crate::files::open(rt, b);
    let s = crate::files::read_both(&first, &second, counts);
    let v = s.verdict;
    let n = crate::text::text(v, counts, s.width, s.height, out);
    show(rt, v, i, &second, s.width, s.height, counts);
    n
}

fn print(rt: &HostRuntime, a: &[u8], b: &[u8], i: Option<usize>, out: &mut [u8])
    requires { length out.old ≡ 131072 }
{
    let mut counts = [0u32; 2048];
    let n = answer(rt, a, b, i, &mut counts, out);
    app_text::lines::say(OUT, app_text::loading::first(out, n));
}

// The large one comes as an array: its length is known without counting.
fn print_in(rt: &HostRuntime, a: &[u8], b: &[u8], i: Option<usize>, out: &mut [u8; 131072]) {
    print(rt, a, b, i, out);
}

// Compares the files of two names and prints what they give, at once. Where there are tiles to list, the picture for people goes to the file that argument i
// names, if any.
pub fn compare(rt: &HostRuntime, a: &[u8], b: &[u8], i: Option<usize>)
    ensures { Unit }
{
    let mut out = [0u8; 131072];
    print_in(rt, a, b, i, &mut out);
}
