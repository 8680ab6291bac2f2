// Two pictures of one size, as files have them: their size, and where the pixels of each begin.
ghost use Rattle.std.specs.Prelude.{◌≡◌};
ghost use Rattle.app_send.specs.Pair.{sized_pair, pair_of};

use crate::faults::Fault;
use app_pictures::ppm::Head;

#[derive(Clone, Copy)]
pub struct Pair {
    pub width: usize,
    pub height: usize,
    pub old: usize,
    pub new: usize,
}

fn sized(one: Head, two: Head) -> Result<Pair, Fault>
    ensures { result ≡ sized_pair one two }
{
    if two.width != one.width {
        return Err(Fault::Differ);
    }
    if two.height != one.height {
        return Err(Fault::Differ);
    }
    Ok(Pair {
        width: one.width,
        height: one.height,
        old: one.at,
        new: two.at,
    })
}

// The fault: that of the first picture or of the second, or that their sizes differ.
pub fn read(old: &[u8], new: &[u8]) -> Result<Pair, Fault>
    ensures { result ≡ pair_of old.now new.now }
{
    let one = app_pictures::ppm::read_picture(old)?;
    let two = app_pictures::ppm::read_picture(new)?;
    sized(one, two)
}
