// Two .pic files read at their places, "one pixel row of each file at a time". What is promised holds of all files of which the pieces that came are parts
// (specs/Told), so of those that were there: that a read of a descriptor at a place gives that file's bytes is assumed in `read_at`, and nowhere else. A file
// that cannot be opened, a read that fails and a file that has no places (a pipe) are files of which no more comes.
ghost use Rattle.std.specs.Prelude.{◌≡◌, ◌+◌, ◌*◌, ◌≤◌, length};
ghost use Rattle.app_text.specs.First.{first_of};
ghost use Rattle.app_compare.specs.Outside.{Opened, descriptor};
ghost use Rattle.app_compare.specs.Files.{ReadAt, HeadRead, EndRead, Looked, RowRead};
ghost use Rattle.app_compare.specs.Files.{rows_whole, RowCounted, RowsCounted, after_rows, BothRead};
ghost use Rattle.tile_diff.specs.laws.Request.{Sized};
ghost use Rattle.tile_diff.specs.declared.pic.Verdict.TheVariants.{Tiles};

use std::fs::File;
use std::io::{Seek, SeekFrom};
use std::os::fd::AsRawFd;
use tile_diff::pic::{Pic, Verdict};

// What two files give, and the first one's size.
#[derive(Clone, Copy)]
pub struct Seen {
    pub verdict: Verdict,
    pub width: u16,
    pub height: u16,
}

// The file of a name, none where it cannot be opened.
pub fn open(rt: &HostRuntime, name: &[u8]) -> Option<File>
    ensures { Opened name.now (descriptor result) }
{
    app_text::files::open(rt, name).ok()
}

// So many bytes of an open file, from a place on, into a part that is lent: how many came. It has no places where it is a pipe.
fn read_from(file: &File, place: usize, part: &mut [u8]) -> usize
    ensures { result ≤ length part.new }
{
    let mut from = file;
    let at = place as u64;
    match from.seek(SeekFrom::Start(at)) {
        Ok(found) => {
            if found != at {
                return 0;
            }
            io::read_full(file.as_raw_fd(), part)
        }
        Err(_) => 0,
    }
}

// So many bytes of a file, from a place on, into a part that is lent: how many came.
fn read_into(file: &Option<File>, place: usize, part: &mut [u8]) -> usize
    requires { place ≤ 1099511627776 }
    ensures { (result ≤ length part.new) × ReadAt (descriptor file.now) place (length part.new) (first_of part.new result) }
{
    match file {
        Some(open) => read_from(open, place, part),
        None => 0,
    }
}

// The same into the start of a list.
fn read_at(file: &Option<File>, place: usize, size: usize, row: &mut [u8]) -> usize
    requires { (place ≤ 1099511627776) × (size ≤ length row.old) }
    ensures { ReadAt (descriptor file.now) place size (first_of row.new result) }
{
    read_into(file, place, &mut row[0..size])
}

// What a file's head says: no size where it is cut or missing.
fn head(file: &Option<File>) -> Pic
    ensures { HeadRead (descriptor file.now) result }
{
    let mut bytes = [0u8; 4];
    let n = read_into(file, 0, &mut bytes);
    tile_diff::pic::pic_of(app_text::loading::first(&bytes, n))
}

// The place of a picture's last byte.
fn end_of(p: Pic) -> usize
    ensures { (result ≡ 3 + 2 * (p.width * p.height)) × (result ≤ 8589934592) }
{
    3 + 2 * (p.width as usize * p.height as usize)
}

// Where a file has the size that its head says, two bytes asked for at its end tell whether it is short, whole or too long.
fn with_end(file: &Option<File>, p: Pic) -> Pic
    ensures { EndRead (descriptor file.now) p result }
{
    let mut two = [0u8; 2];
    let end = end_of(p);
    let n = read_into(file, end, &mut two);
    Pic {
        width: p.width,
        height: p.height,
        bytes: end + n,
    }
}

// What is known of a file: its size, and whether it is whole.
fn look(file: &Option<File>) -> Pic
    ensures { Looked (descriptor file.now) result }
{
    let p = head(file);
    if session::is_size(p.width as usize, p.height as usize) {
        return with_end(file, p);
    }
    p
}

// Where row y begins in a file.
fn place(width: u16, y: u16) -> usize
    ensures { (result ≡ 4 + 2 * (y * width)) × (result ≤ 8589934592) }
{
    4 + 2 * (y as usize * width as usize)
}

// Row y of a file of some width: how many of its bytes came.
pub fn read_row(file: &Option<File>, width: u16, y: u16, row: &mut [u8]) -> usize
    requires { (width ≤ 4096) × (length row.old ≡ 8192) }
    ensures { RowRead (descriptor file.now) width y (first_of row.new result) }
{
    read_at(file, place(width, y), 2 * (width as usize), row)
}

// Are both rows whole, by their bytes?
fn are_rows(a: &[u8], b: &[u8], width: u16) -> bool
    ensures { result ≡ rows_whole width a.now b.now }
{
    let size = 2 * (width as usize);
    if a.len() < size {
        return false;
    }
    size <= b.len()
}

// Row y of each file, its differing words counted; whether both came whole.
fn count_both(a: &Option<File>, b: &Option<File>, width: u16, y: u16, counts: &mut [u32]) -> bool
    requires { width ≤ 4096 }
    ensures { RowCounted (descriptor a.now) (descriptor b.now) width y counts.old counts.new result }
{
    let mut first = [0u8; 8192];
    let mut second = [0u8; 8192];
    let n = read_row(a, width, y, &mut first);
    let m = read_row(b, width, y, &mut second);
    let of_a = app_text::loading::first(&first, n);
    let of_b = app_text::loading::first(&second, m);
    tile_diff::count::count_row(of_a, of_b, width, y, counts);
    are_rows(of_a, of_b, width)
}

// All rows of two files of one size; false where one came short all the same.
fn count_through(
    a: &Option<File>,
    b: &Option<File>,
    width: u16,
    height: u16,
    counts: &mut [u32],
) -> bool
    requires { width ≤ 4096 }
    ensures { RowsCounted (descriptor a.now) (descriptor b.now) width height counts.old counts.new result }
{
    for y in 0..height {
        if !count_both(a, b, width, y, counts) {
            return false;
        }
    }
    true
}

// A picture whose row came short is bad.
fn verdict_of(good: bool) -> Verdict
    ensures { result ≡ after_rows good }
{
    if good {
        return Verdict::Tiles;
    }
    Verdict::Bad
}

fn as_seen(v: Verdict, p: Pic) -> Seen
    ensures { (result.verdict ≡ v) × (result.width ≡ p.width) × (result.height ≡ p.height) }
{
    Seen {
        verdict: v,
        width: p.width,
        height: p.height,
    }
}

// Both files: each is judged by its head and its end first, so that "bad" goes before "size"; then the rows of two of one size are counted.
pub fn read_both(a: &Option<File>, b: &Option<File>, counts: &mut [u32]) -> Seen
    ensures { BothRead (descriptor a.now) (descriptor b.now) counts.old counts.new result × (result.verdict ≡ Tiles → Sized result.width result.height) }
{
    let p = look(a);
    let q = look(b);
    let v = tile_diff::pic::judge(p, q);
    match v {
        Verdict::Bad => as_seen(Verdict::Bad, p),
        Verdict::Size => as_seen(Verdict::Size, p),
        Verdict::Tiles => {
            let good = count_through(a, b, p.width, p.height, counts);
            as_seen(verdict_of(good), p)
        }
    }
}
