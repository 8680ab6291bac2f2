// The records of a recording on a picture: another picture ('P'), a frame call on a message ('F'), and one on what the frame writer wrote ('G'). Lists and
// pictures have the lengths and the picture the word size that the recording says.
use app_calls::calls::{Lengths, Line};
use app_recording::lent::{Hashed, Word};
use colour::GlassWord;
use session::Session;

// Has the picture of a 'P' words of 32 bits?
pub fn is_wide(m: &[u8]) -> bool {
    crate::taking::figure(m, 2) == 32
}

fn set<W: Word>(n: usize, seed: usize, picture: &mut [W]) -> usize {
    match picture.get_mut(..n) {
        Some(part) => {
            app_recording::lent::fill_picture(part, seed);
            n
        }
        None => usize::MAX,
    }
}

// 'P': how many words it has, the largest number where there are not so many.
pub fn set_picture(m: &[u8], picture: &mut [u16], wide: &mut [u32]) -> usize {
    let n = crate::taking::figure(m, 0);
    let seed = crate::taking::figure(m, 1);
    if is_wide(m) {
        return set(n, seed, wide);
    }
    set(n, seed, picture)
}

// The lengths of the work lists.
pub fn lengths(m: &[u8]) -> Lengths {
    Lengths {
        one: crate::taking::figure(m, 0),
        two: crate::taking::figure(m, 1),
        three: crate::taking::figure(m, 2),
    }
}

// A frame call on the first words of a picture.
fn frame_on<W: GlassWord + Hashed>(
    s: Session,
    bytes: &[u8],
    picture: &mut [W],
    words: usize,
    n: Lengths,
) -> bool {
    match picture.get_mut(..words) {
        Some(part) => app_calls::calls::frame_call(s, bytes, part, n, Line::Recorded),
        None => false,
    }
}

// 'F', 'G', on the picture that is lent, of so many words of 16 or of 32 bits: false where the recording asks for more than there is.
pub fn frame(
    s: Session,
    bytes: &[u8],
    n: Lengths,
    words: usize,
    is_wide: bool,
    picture: &mut [u16],
    wide: &mut [u32],
) -> bool {
    if is_wide {
        return frame_on(s, bytes, wide, words, n);
    }
    frame_on(s, bytes, picture, words, n)
}
