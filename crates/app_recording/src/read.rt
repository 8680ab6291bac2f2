// A recording as it is read from standard input: bytes and little-endian numbers of four bytes. No section of document 01 is made true here. What is read comes
// from the outside, of which no contract can speak; where something is missing, nothing is handed on.
ghost use Rattle.std.specs.Prelude.{◌≡◌, min};

use std::io::Read;
use std::rt::Stdin;

// Standard input, with lent memory that holds the bytes that came last: how many they are, and the place of the next.
#[derive(Drop)]
pub struct Input<'a> {
    from: Stdin,
    lent: &'a mut [u8],
    have: usize,
    at: usize,
}

impl<'a> Input<'a> {
    // The input before its first byte.
    pub fn new(from: Stdin, lent: &'a mut [u8]) -> Input<'a>
        ensures { (result.at ≡ 0) × (result.have ≡ 0) }
    {
        Input {
            from,
            lent,
            have: 0,
            at: 0,
        }
    }

    // The next byte; none at the input's end, and where it cannot be read.
    pub fn next(&mut self) -> Option<u8>
        ensures { Unit }
    {
        if self.have <= self.at {
            self.have = self.from.read(self.lent).ok()?;
            self.at = 0;
        }
        let have = self.have;
        let at = self.at;
        let byte = *self.lent.get(..have)?.get(at)?;
        self.at += 1;
        Some(byte)
    }

    // The next four bytes as a number, low byte first.
    pub fn number(&mut self) -> Option<usize>
        ensures { Unit }
    {
        let bytes = [self.next()?, self.next()?, self.next()?, self.next()?];
        Some(u32::from_le_bytes(bytes) as usize)
    }

    // The next N numbers.
    pub fn numbers<const N: usize>(&mut self) -> Option<[usize; N]>
        ensures { Unit }
    {
        let mut numbers = [0; N];
        for x in numbers.iter_mut() {
            *x = self.number()?;
        }
        Some(numbers)
    }

    // The next bytes, as many as there is room for.
    pub fn fill(&mut self, to: &mut [u8]) -> Option<()>
        ensures { Unit }
    {
        for x in to.iter_mut() {
            *x = self.next()?;
        }
        Some(())
    }

    // The next n bytes, put at the start of lent memory; none where there are more than it holds.
    pub fn message<'m>(&mut self, to: &'m mut [u8], n: usize) -> Option<&'m [u8]>
        ensures { Unit }
    {
        let part = to.get_mut(..n)?;
        self.fill(part)?;
        Some(part)
    }
}

// A number that is too large for its field is handed on as the largest.
pub fn byte_of(v: usize) -> u8
    ensures { result ≡ min v 255 }
{
    v.min(255) as u8
}

pub fn word_of(v: usize) -> u16
    ensures { result ≡ min v 65535 }
{
    v.min(65535) as u16
}

pub fn index_of(v: usize) -> u32
    ensures { result ≡ min v 4294967295 }
{
    v.min(4294967295) as u32
}
