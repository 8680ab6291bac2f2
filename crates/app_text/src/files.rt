// Files by their names, as the arguments give them: bytes, which std takes only where they are a text. A name that is none is that of a file
// that cannot be opened.
use std::fmt::InlineText;
use std::fs::File;
use std::io::{Error, ErrorKind, Read};
use std::os::fd::AsRawFd;
use std::rt::Stdin;

// What is read from: standard input, or a file, which is closed where it is let go.
#[derive(Drop)]
pub enum Source {
    Standard(Stdin),
    Named(File),
}

// Where a result goes: to standard output, or to a file, which is closed where it is let go.
#[derive(Drop)]
pub enum Target {
    Standard,
    Named(File),
}

// One read: how many bytes came, at most so many as there is room for, 0 at the end.
impl Read for Source {
    fn read(&mut self, buf: &mut [u8]) -> std::io::Result<usize> {
        match self {
            Source::Standard(stdin) => stdin.read(buf),
            Source::Named(file) => file.read(buf),
        }
    }
}

impl AsRawFd for Source {
    fn as_raw_fd(&self) -> i32 {
        match self {
            Source::Standard(_) => 0,
            Source::Named(file) => file.as_raw_fd(),
        }
    }
}

impl AsRawFd for Target {
    fn as_raw_fd(&self) -> i32 {
        match self {
            Target::Standard => crate::lines::OUT,
            Target::Named(file) => file.as_raw_fd(),
        }
    }
}

// A name as a text.
fn text_of(name: &[u8]) -> std::io::Result<&str> {
    std::str::from_utf8(name).map_err(|_| Error::from(ErrorKind::InvalidFilename))
}

// Opens the file of a name for reading.
pub fn open(rt: &HostRuntime, name: &[u8]) -> std::io::Result<File> {
    File::open(rt, text_of(name)?)
}

// Opens the file of a name for writing: where it is there it is emptied, else it is made.
pub fn create(rt: &HostRuntime, name: &[u8]) -> std::io::Result<File> {
    File::create(rt, text_of(name)?)
}

// A line on standard error: the name of what failed, and why, in the system's words.
pub fn say_failed(name: &[u8], e: Error)
    ensures { Unit }
{
    let told = InlineText::<256>::of(e);
    let text = told.as_str();
    let words = match text.split_once(" (os error ") {
        Some((before, _)) => before,
        None => text,
    };
    crate::lines::say(crate::lines::ERR, name);
    crate::lines::say(crate::lines::ERR, b": ");
    crate::lines::say(crate::lines::ERR, words.as_bytes());
    crate::lines::say(crate::lines::ERR, b"\n");
}
