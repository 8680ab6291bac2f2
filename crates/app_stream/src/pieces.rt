// The pieces that an input gives, one after the other: the next is read once the one before is at its end. specs/Pieces says what a program that goes by them, turn
// by turn, comes to. What an input gives is the outside's, of which no contract can speak; that it ends is said by a piece without bytes.
ghost use Rattle.std.specs.Prelude.{◌≡◌};
ghost use Rattle.app_text.specs.First.{first_of};
ghost use Rattle.app_stream.specs.Pieces.{Fills};

use std::io::Read;

// How many bytes the piece has that was read last, the place in it, and whether the input has ended.
#[derive(Clone, Copy)]
pub struct Piece {
    pub n: usize,
    pub at: usize,
    pub last: bool,
}

// Before the first piece.
pub fn start() -> Piece
    ensures { (result.n ≡ 0) × (result.at ≡ 0) }
{
    Piece {
        n: 0,
        at: 0,
        last: false,
    }
}

// Reads at most so many bytes: how many came, 0 at the end of the input.
fn read_piece(source: &mut impl Read, piece: &mut [u8], size: usize) -> usize {
    match piece.get_mut(..size) {
        Some(part) => source.read(part).unwrap_or(0),
        None => 0,
    }
}

// The next piece, where this one is at its end; what was passed over beyond it is passed over in the next.
pub fn fill(p: Piece, source: &mut impl Read, size: usize, piece: &mut [u8]) -> Piece
    ensures { Fills p.at (first_of piece.old p.n) result.at (first_of piece.new result.n) result.last }
{
    let end = app_text::loading::first(piece, p.n).len();
    if p.at < end {
        return Piece {
            n: p.n,
            at: p.at,
            last: false,
        };
    }
    let n = read_piece(source, piece, size);
    Piece {
        n: n,
        at: p.at - end,
        last: n == 0,
    }
}
