// What the programs say, piece by piece: texts and numbers, on standard output (`OUT`) or standard error (`ERR`), and lines with 01's words for its
// numbers ("Numbers the fitter sees"). They answer nothing and change nothing lent: they only talk to the outside. A program has no exit status: the last line that
// it says is its verdict, "NAME: done", or "NAME: " and why not. Its lines go to standard output where its result goes to a named file, else to standard error.
pub const OUT: i32 = 1;

pub const ERR: i32 = 2;

pub fn say(to: i32, text: &[u8])
    ensures { Unit }
{
    io::write_all(to, text);
}

// A text, and a number behind it.
pub fn say_number(to: i32, text: &[u8], n: u64)
    ensures { Unit }
{
    say(to, text);
    io::print_decimal(to, n);
}

// A text, and a number behind it in base 16, of at least so many digits.
pub fn say_hex(to: i32, text: &[u8], n: u64, digits: usize)
    ensures { Unit }
{
    say(to, text);
    io::print_hex(to, n, digits);
}

// 01's word for a number, behind a blank, and the end of the line.
fn say_word(to: i32, number: u8) {
    match number {
        1 => say(to, b" cut\n"),
        2 => say(to, b" buffer\n"),
        3 => say(to, b" kind\n"),
        4 => say(to, b" length\n"),
        5 => say(to, b" field\n"),
        6 => say(to, b" too big\n"),
        7 => say(to, b" quant\n"),
        8 => say(to, b" place\n"),
        9 => say(to, b" range\n"),
        10 => say(to, b" overrun\n"),
        11 => say(to, b" tail\n"),
        12 => say(to, b" order\n"),
        13 => say(to, b" room\n"),
        14 => say(to, b" version not taken\n"),
        15 => say(to, b" no setting\n"),
        16 => say(to, b" out of order\n"),
        17 => say(to, b" tile missing\n"),
        _ => say(to, b"\n"),
    }
}

// The end of a line: refused, the number and its word.
pub fn say_refused(to: i32, number: u8)
    ensures { Unit }
{
    say_number(to, b"refused ", number as u64);
    say_word(to, number);
}

// What a header call came to.
pub fn say_header(to: i32, count: u64, number: u8)
    ensures { Unit }
{
    say_number(to, b"header ", count);
    say(to, b": ");
    if number == 0 {
        say(to, b"done\n");
        return;
    }
    say_refused(to, number);
}

// What a frame call came to.
pub fn say_frame(to: i32, count: u64, number: u8, tiles: usize)
    ensures { Unit }
{
    say_number(to, b"frame ", count);
    say(to, b": ");
    if number == 0 {
        say_number(to, b"done, ", tiles as u64);
        say(to, b" tiles\n");
        return;
    }
    say_refused(to, number);
}

// ---- the last line

// All was done.
pub fn say_done(to: i32, name: &[u8])
    ensures { Unit }
{
    say(to, name);
    say(to, b": done\n");
}

// Why it was not.
pub fn say_why(to: i32, name: &[u8], text: &[u8])
    ensures { Unit }
{
    say(to, name);
    say(to, b": ");
    say(to, text);
    say(to, b"\n");
}

// What was refused, with 01's number and word.
pub fn say_refusal(to: i32, name: &[u8], number: u8)
    ensures { Unit }
{
    say(to, name);
    say(to, b": ");
    say_refused(to, number);
}
