// Reads a whole input, a file that an argument names or standard input, into a buffer, of which the first bytes are then what was read.
ghost use Rattle.std.specs.Prelude.{◌≡◌, ◌≤◌, length, drop, IfSome};
ghost use Rattle.app_text.specs.First.{first_of};

use crate::files::Source;
use std::io::Read;
use std::os::fd::AsRawFd;

// Opens the file that argument i names, or standard input where there is no such argument; none where that failed, which is said.
pub fn open_input(rt: &HostRuntime, to: i32, name: &[u8], i: Option<usize>) -> Option<Source>
    ensures { Unit }
{
    let i = match i {
        Some(i) => i,
        None => return Some(Source::Standard(rt.stdin())),
    };
    let mut path = io::buffer();
    let n = crate::arguments::argument(rt, i, &mut path);
    match crate::files::open(rt, &path[..n]) {
        Ok(file) => Some(Source::Named(file)),
        Err(_) => {
            crate::lines::say(to, name);
            crate::lines::say_why(to, b": cannot open", &path[..n]);
            None
        }
    }
}

// Whether the input ends here; if not, that is said: more follows, or it cannot be read.
fn is_end(to: i32, name: &[u8], source: &mut Source, too_long: &[u8]) -> bool {
    let mut one = [0u8; 1];
    match source.read(&mut one) {
        Ok(0) => true,
        Ok(_) => {
            crate::lines::say_why(to, name, too_long);
            false
        }
        Err(_) => {
            crate::lines::say_why(to, name, b"the input cannot be read");
            false
        }
    }
}

// Reads the file that argument i names, standard input where there is no such argument: how many bytes it has. Where the file is not there, cannot be read or
// is longer than the buffer, one line says so.
pub fn load(
    rt: &HostRuntime,
    to: i32,
    name: &[u8],
    i: Option<usize>,
    data: &mut [u8],
    too_long: &[u8],
) -> Option<usize>
    ensures { IfSome result (λ n. n ≤ length «data».new) }
{
    let mut source = open_input(rt, to, name, i)?;
    let n = io::read_full(source.as_raw_fd(), data);
    if is_end(to, name, &mut source, too_long) {
        return Some(n);
    }
    None
}

// The first n bytes, none where there are fewer.
pub fn first(s: &[u8], n: usize) -> &[u8]
    ensures { result.now ≡ first_of s.now n }
{
    if s.len() < n {
        return &s[..0];
    }
    &s[..n]
}

// The bytes from a place on, none where it is past their end.
pub fn rest(s: &[u8], at: usize) -> &[u8]
    ensures { result.now ≡ drop at s.now }
{
    s.get(at..).unwrap_or(&s[..0])
}
