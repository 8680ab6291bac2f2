// Which tiles of two pictures differ (document 02, request Seven):  compare [OUT.bmp]
// The fixed files a.pic and b.pic of the folder in which it is run are read one pixel row of each at a time. For each tile that differs a line "x y n": its
// column and row from 0 and the count of differing words, row by row; then "tiles t". Different sizes print only "size"; a file that is short, too long, of
// a size that 01 refuses, or missing, prints only "bad", which goes before "size". With an argument the second picture, dimmed, the differing tiles framed,
// goes to the file of that name as a 16-bit BMP. Memory: one row of each file and 2,048 counts.
#![tactic(auto)]

use std::rt::Env;

// The number of the argument that names a picture, if any.
fn picture_argument(rt: &impl Env) -> Option<usize> {
    match app_text::arguments::count(rt) {
        2 => Some(1),
        _ => None,
    }
}

fn main(rt: HostRuntime) {
    app_compare::compare(&rt, b"a.pic", b"b.pic", picture_argument(&rt));
}
