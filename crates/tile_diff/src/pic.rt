// A .pic file judged: "width 2 bytes, height 2 bytes, then words, little-endian"; and which of "bad", "size" and the tiles two files give.
ghost use Rattle.std.specs.Prelude.{◌≡◌};
ghost use Rattle.tile_diff.specs.Pic.{pic_of, is_whole, sizes_judge, verdict_of};

// What is known of a file: the size that its head says, and how many bytes were there. All 0 where there is no head.
#[derive(Clone, Copy)]
pub struct Pic {
    pub width: u16,
    pub height: u16,
    pub bytes: usize,
}

// What two files give. All three are printed, and none has a value: an enum of three is plainer than a Result of nothing.
#[derive(Clone, Copy)]
pub enum Verdict {
    Bad,
    Size,
    Tiles,
}

// What some bytes from a file's start on say.
pub fn pic_of(m: &[u8]) -> Pic
    ensures { result ≡ pic_of m.now }
{
    if m.len() < 4 {
        return Pic {
            width: 0,
            height: 0,
            bytes: 0,
        };
    }
    Pic {
        width: wire::le16_at(m, 0) as u16,
        height: wire::le16_at(m, 2) as u16,
        bytes: m.len(),
    }
}

// Is the size one that 01 allows, and the file exactly as long as its head says?
pub fn is_whole(p: Pic) -> bool
    ensures { result ≡ is_whole p }
{
    if session::is_size(p.width as usize, p.height as usize) {
        return p.bytes == 4 + 2 * (p.width as usize * p.height as usize);
    }
    false
}

// Of two whole files: are they of one size?
fn sizes_judge(a: Pic, b: Pic) -> Verdict
    ensures { result ≡ sizes_judge a b }
{
    if a.width != b.width {
        return Verdict::Size;
    }
    if a.height != b.height {
        return Verdict::Size;
    }
    Verdict::Tiles
}

// "bad" goes before "size", and both before any tile.
pub fn judge(a: Pic, b: Pic) -> Verdict
    ensures { result ≡ verdict_of a b }
{
    if is_whole(a) {
        if is_whole(b) {
            return sizes_judge(a, b);
        }
        return Verdict::Bad;
    }
    Verdict::Bad
}
