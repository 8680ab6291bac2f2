// The files of 001's worked sample, and how a list that was made compares with them. A file of data/ has the decoded values of a stage, as an independent
// implementation made them; one of data/printed/ has the rows of a stage that stand whole in 001's text, each its place in the stage and its numbers. All
// numbers are two bytes, for the number and 32,768, low byte first. No section of document 01 is made true here; `sample` compares by it.
ghost use Rattle.std.specs.Prelude.{◌≡◌, ◌+◌, ◌/◌, pos, length};
ghost use Rattle.whole.specs.laws.Near.{Near};
ghost use Rattle.io.specs.Counts.{IsPrefixLen};
ghost use Rattle.sample.specs.Compare.{part_of, number_of, value_at, Unpacked, Loaded, one_if, holds_at, agreeing, place_of, row_same, rows_same};

use app_text::lines::OUT;
use std::os::fd::AsRawFd;

// ---- files

// Reads a file of data/; the answer is the number of its bytes.
pub fn load(rt: &HostRuntime, name: &[u8], bytes: &mut [u8]) -> usize
    ensures { IsPrefixLen result bytes.new }
{
    match app_text::files::open(rt, name) {
        Ok(file) => io::read_full(file.as_raw_fd(), bytes),
        Err(e) => {
            app_text::files::say_failed(name, e);
            0
        }
    }
}

// The n numbers of a list from place a on, none where they are not all there.
pub fn part(list: &[i32], a: usize, n: usize) -> &[i32]
    ensures { result.now ≡ part_of list.now a n }
{
    if list.len() < a {
        return &list[..0];
    }
    if list.len() - a < n {
        return &list[..0];
    }
    let e = a + n;
    &list[a..e]
}

fn byte(x: u8) -> i32
    ensures { result ≡ pos x }
{
    x as i32
}

fn number(low: i32, high: i32) -> i32
    requires { Near 255 low × Near 255 high }
    ensures { result ≡ number_of low high }
{
    low + 256 * high - 32768
}

// A number of a file.
fn value(low: u8, high: u8) -> i32
    ensures { result ≡ number_of (pos low) (pos high) }
{
    number(byte(low), byte(high))
}

// The number at place i of a file, 0 past the end.
fn value_at(bytes: &[u8; 8320], i: usize) -> i32
    ensures { result ≡ value_at bytes.now i }
{
    if 4160 <= i {
        return 0;
    }
    value(bytes[2 * i], bytes[2 * i + 1])
}

fn unpack(bytes: &[u8; 8320], list: &mut [i32])
    ensures { Unpacked bytes.now list.old list.new }
{
    for (i, x) in list.iter_mut().enumerate() {
        *x = value_at(bytes, i);
    }
}

// A list of a file: its numbers, and how many they are.
pub fn load_list(rt: &HostRuntime, name: &[u8], list: &mut [i32]) -> usize
    ensures { Loaded list.old list.new result }
{
    let mut bytes = [0u8; 8320];
    let n = load(rt, name, &mut bytes) / 2;
    unpack(&bytes, list);
    n
}

// ---- comparing

pub fn one(is: bool) -> usize
    ensures { result ≡ one_if is }
{
    if is { 1 } else { 0 }
}

// Whether a list holds x at place i.
fn holds(list: &[i32], i: usize, x: i32) -> bool
    ensures { result ≡ holds_at list.now i x }
{
    if list.len() <= i {
        return false;
    }
    list[i] == x
}

// How many places of two lists hold the same number.
pub fn agree(got: &[i32], want: &[i32]) -> usize
    ensures { result ≡ agreeing got.now want.now }
{
    let mut same = 0;
    for (i, x) in got.iter().enumerate() {
        same += one(holds(want, i, *x));
    }
    same
}

// A number of a file as a place, 0 where it is below 0.
fn place_of(x: i32) -> usize
    ensures { result ≡ place_of x }
{
    if x < 0 {
        return 0;
    }
    x as usize
}

// Whether the row of w numbers that begins at place a of a file is that of the stage.
fn row_same(rows: &[i32], got: &[i32], w: usize, a: usize) -> bool
    ensures { result ≡ row_same rows.now got.now w a }
{
    if rows.len() <= a {
        return false;
    }
    let b = place_of(rows[a]);
    agree(part(got, b, w), part(rows, a + 1, w)) == w
}

// How many of a file's rows, of w numbers and their place each, are those of the stage.
pub fn rows_same(rows: &[i32], got: &[i32], w: u8) -> usize
    ensures { result ≡ rows_same rows.now got.now w (length rows.now / (w + 1)) }
{
    let step = w as usize + 1;
    let n = rows.len() / step;
    let mut same = 0;
    for i in 0..n {
        same += one(row_same(rows, got, w as usize, i * step));
    }
    same
}

// The place of a row that is not the stage's, as 001 labels it.
fn say_other(rows: &[i32], got: &[i32], w: usize, a: usize) {
    if rows.len() <= a {
        return;
    }
    if row_same(rows, got, w, a) {
        return;
    }
    app_text::lines::say_hex(OUT, b", not ", place_of(rows[a]) as u64, 8);
}

fn say_others(rows: &[i32], got: &[i32], w: u8) {
    let step = w as usize + 1;
    let n = rows.len() / step;
    for i in 0..n {
        say_other(rows, got, w as usize, i * step);
    }
}

// ---- stages

// The name of a stage: that of its file of printed rows, without the folder.
fn plain(name: &[u8]) -> &[u8] {
    if name.len() < 8 {
        return name;
    }
    &name[8..]
}

// What was made against 001's print: how many of the rows that stand whole in its text, of w numbers each, are the same.
pub fn printed(rt: &HostRuntime, name: &[u8], got: &[i32], w: u8) {
    let mut list = [0; 4160];
    let n = load_list(rt, name, &mut list);
    let rows = part(&list, 0, n);
    app_text::lines::say(OUT, b"printed ");
    app_text::lines::say(OUT, plain(name));
    app_text::lines::say_number(OUT, b": ", rows_same(rows, got, w) as u64);
    app_text::lines::say_number(OUT, b" of ", (n / (w as usize + 1)) as u64);
    app_text::lines::say(OUT, b" rows the same");
    say_others(rows, got, w);
    app_text::lines::say(OUT, b"\n");
}

// A stage's line: how many values agree, of how many.
pub fn say_agree(stage: &[u8], same: usize, all: usize) {
    app_text::lines::say(OUT, stage);
    app_text::lines::say_number(OUT, b": ", same as u64);
    app_text::lines::say_number(OUT, b" of ", all as u64);
    app_text::lines::say(OUT, b" agree\n");
}

// What was made against the decoded values of a stage, of which there must be as many.
pub fn decoded(rt: &HostRuntime, name: &[u8], got: &[i32]) {
    let mut list = [0; 4096];
    let n = load_list(rt, name, &mut list);
    say_agree(name, agree(got, part(&list, 0, n)), n);
    if got.len() != n {
        app_text::lines::say(OUT, b"  but not as many were made\n");
    }
}

// One stage: what was made against both.
pub fn stage(rt: &HostRuntime, name: &[u8], got: &[i32]) {
    decoded(rt, plain(name), got);
    printed(rt, name, got, 8);
}

// A stage that is a part of a list.
pub fn shown(rt: &HostRuntime, name: &[u8], list: &[i32], a: usize, n: usize) {
    stage(rt, name, part(list, a, n));
}
