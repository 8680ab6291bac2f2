// The arguments of a program: options of one letter, `-x`, each with so many values behind it, and files. A program names its options by their letters, each
// with the number of its values. What the arguments are is the outside's, of which no contract can speak.
ghost use Rattle.std.specs.Prelude.{◌≤◌};
ghost use Rattle.io.specs.Counts.{IsPrefixLen};

use std::env::FillError;
use std::rt::Env;

// What an argument is: an option of the program by its letter, an option that the program does not have, or else a file.
#[derive(Clone, Copy, PartialEq, Eq)]
pub enum Kind {
    Option(u8),
    Unknown,
    File,
}

// The arguments of one kind: where the last of them stands (of an option its first value), none where there is none, and how many there are.
#[derive(Clone, Copy)]
pub struct Found {
    pub at: Option<usize>,
    pub times: usize,
}

// The arguments are not as the program's usage says.
#[derive(Clone, Copy)]
pub struct Usage;

// Argument i, put at the start of the buffer: how many bytes it has, 0 where it is missing or longer than the buffer, and then its first bytes are there.
pub fn argument(rt: &impl Env, i: usize, buf: &mut [u8]) -> usize
    ensures { IsPrefixLen result buf.new }
{
    rt.arg(i, buf).unwrap_or(0)
}

// How many arguments there are, the program's own name among them.
pub fn count(rt: &impl Env) -> usize {
    let mut none = [0u8; 1];
    for i in 0..usize::MAX {
        if let Err(FillError::NotPresent) = rt.arg(i, &mut none) {
            return i;
        }
    }
    usize::MAX
}

// How many values an option has, none where the program has no such option.
fn values_of(options: &[(u8, u8)], letter: u8) -> Option<u8> {
    for (known, values) in options {
        if *known == letter {
            return Some(*values);
        }
    }
    None
}

// What argument i is, and how many arguments it takes up, itself among them.
fn kind_of(rt: &impl Env, options: &[(u8, u8)], i: usize) -> (Kind, usize)
    ensures { (1 ≤ result.1) × (result.1 ≤ 256) }
{
    let mut text = [0u8; 3];
    let n = argument(rt, i, &mut text);
    if text[0] != b'-' {
        return (Kind::File, 1);
    }
    if n != 2 {
        return (Kind::Unknown, 1);
    }
    match values_of(options, text[1]) {
        Some(values) => (Kind::Option(text[1]), 1 + values as usize),
        None => (Kind::Unknown, 1),
    }
}

// All arguments of one kind, where the values of the last option are all there.
pub fn find(rt: &impl Env, options: &[(u8, u8)], wanted: Kind) -> Result<Found, Usage>
    ensures { Unit }
{
    find_below(rt, options, wanted, count(rt))
}

// The same of the arguments below the n-th: where the last file stands at n, what is found is the one before it.
pub fn find_below(
    rt: &impl Env,
    options: &[(u8, u8)],
    wanted: Kind,
    n: usize,
) -> Result<Found, Usage>
    ensures { Unit }
{
    let mut found = Found { at: None, times: 0 };
    let mut i: usize = 1;
    // No range: a turn passes an option with its values.
    while i < n {
        let (kind, span) = kind_of(rt, options, i);
        if kind == wanted {
            let at = if kind == Kind::File { i } else { i + 1 };
            found = Found {
                at: Some(at),
                times: found.times + 1,
            };
        }
        if n - i < span {
            return Err(Usage);
        }
        i += span;
    }
    Ok(found)
}

// The one argument of a kind, if any; there are not to be two.
pub fn find_once(rt: &impl Env, options: &[(u8, u8)], wanted: Kind) -> Result<Option<usize>, Usage>
    ensures { Unit }
{
    let found = find(rt, options, wanted)?;
    if 1 < found.times {
        return Err(Usage);
    }
    Ok(found.at)
}

// All options are the program's.
pub fn only_known(rt: &impl Env, options: &[(u8, u8)]) -> Result<(), Usage>
    ensures { Unit }
{
    match find(rt, options, Kind::Unknown)?.at {
        Some(_) => Err(Usage),
        None => Ok(()),
    }
}
