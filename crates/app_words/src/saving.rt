// A program's result, made in memory, goes out: to the file that an argument names, or to standard output.
use app_text::files::Target;
use app_text::lines::{ERR, OUT};
use std::os::fd::AsRawFd;

// Where a program's lines go: to standard output where its result goes to a named file, else to standard error. i is the argument that names the file.
pub fn lines_to(i: Option<usize>) -> i32
    ensures { Unit }
{
    match i {
        Some(_) => OUT,
        None => ERR,
    }
}

// Opens the file that argument i names for writing, or standard output where there is no such argument.
fn open_result(rt: &HostRuntime, i: Option<usize>) -> std::io::Result<Target> {
    match i {
        Some(i) => {
            let mut path = io::buffer();
            let n = app_text::arguments::argument(rt, i, &mut path);
            Ok(Target::Named(app_text::files::create(rt, &path[..n])?))
        }
        None => Ok(Target::Standard),
    }
}

// Writes a result to the file that argument i names, or to standard output: whether all of it could be written.
fn write_result(rt: &HostRuntime, i: Option<usize>, bytes: &[u8]) -> bool {
    match open_result(rt, i) {
        Ok(target) => io::write_all(target.as_raw_fd(), bytes),
        Err(_) => false,
    }
}

// Writes a result; false where it could not be written, and then one line says so.
pub fn save(rt: &HostRuntime, to: i32, name: &[u8], i: Option<usize>, bytes: &[u8]) -> bool
    ensures { Unit }
{
    if write_result(rt, i, bytes) {
        return true;
    }
    app_text::lines::say_why(to, name, b"the result could not be written");
    false
}
