// A region's rectangles held against a tile's columns, once a tile (document 01's "Blocks", the sentence on which words of the picture
// are changed): what each has of the columns that lie in the channel, and its rows. Four numbers a rectangle are kept in a work list,
// and every pixel row of the tile is then held against those.
ghost use Rattle.std.specs.Prelude.{◌≡◌, ◌+◌, ◌*◌, ◌-◌, ◌≤◌, ◌<◌, pos, nat_abs, length, set};
ghost use Rattle.whole.specs.Tab.{at};
ghost use Rattle.frame_draw.specs.Spans.{part_of, mask_of};
ghost use Rattle.frame_draw.specs.Clips.{clip_in, clip_of, on_row, half_in, half_of, clip_at, with_clip, Clipped, SmallClip, Clips};

// A rectangle against a tile: its words of the tile's row, on the picture's rows from one on to before another.
#[derive(Clone, Copy)]
pub struct Clip {
    pub mask: u64,
    pub top: usize,
    pub end: usize,
}

// So many of a tile's 64 columns (or rows) lie in a channel of width (or height) w.
pub fn part_of(w: usize, tx: usize) -> usize
    requires { tx < 65536 }
    ensures { result ≡ part_of w tx }
{
    w.saturating_sub(64 * tx).min(64)
}

// The words of a tile's row from one on to before another as the bits of a number, none where that is no more.
pub fn mask_of(from: usize, to: usize) -> u64
    requires { to ≤ 64 }
    ensures { result ≡ mask_of from to }
{
    if to <= from {
        return 0;
    }
    (18446744073709551615u64 >> (64 - (to - from))) << from
}

fn clip_in(x: usize, y: usize, w: usize, h: usize, a: usize, part: usize) -> Clip
    requires { (x < 65536) × (y < 65536) × (w < 65536) × (h < 65536) × (part ≤ 64) }
    ensures { result ≡ clip_in x y w h a part }
{
    let mask = mask_of(x.saturating_sub(a), part.min((x + w).saturating_sub(a)));
    Clip {
        mask,
        top: y,
        end: y + h,
    }
}

// Rectangle k of a region against the part of a tile's columns that begins at column a.
fn clip_of(rects: &[u8], a: usize, part: usize, k: usize) -> Clip
    requires { (8 * k + 8 ≤ length rects.now) × (part ≤ 64) }
    ensures { (result ≡ clip_of rects.now a part k) × SmallClip result }
{
    let x = wire::le16_at(rects, 8 * k);
    let y = wire::le16_at(rects, 8 * k + 2);
    let w = wire::le16_at(rects, 8 * k + 4);
    let h = wire::le16_at(rects, 8 * k + 6);
    clip_in(x, y, w, h, a, part)
}

fn put_number(list: &mut [i32], i: usize, n: usize)
    requires { (i < length list.old) × (n < 131072) }
    ensures { list.new ≡ set list.old i (pos n) }
{
    list[i] = n as i32;
}

// Half of a mask, as a number of the list: 2^31 less.
fn put_half(list: &mut [i32], i: usize, n: u64)
    requires { (i < length list.old) × (n < 4294967296) }
    ensures { list.new ≡ set list.old i (half_in n) }
{
    list[i] = (n as i64 - 2147483648) as i32;
}

fn put_clip(clips: &mut [i32], k: usize, c: Clip)
    requires { (4 * k + 4 ≤ length clips.old) × SmallClip c }
    ensures { clips.new ≡ with_clip k c clips.old }
{
    put_half(clips, 4 * k, c.mask % 4294967296);
    put_half(clips, 4 * k + 1, c.mask / 4294967296);
    put_number(clips, 4 * k + 2, c.top);
    put_number(clips, 4 * k + 3, c.end);
}

// All n rectangles against the tile in column tx.
pub fn clip_rects(rects: &[u8], n: usize, w: usize, tx: usize, clips: &mut [i32])
    requires { (8 * n ≤ length rects.now) × (4 * n ≤ length clips.old) × (tx < 65536) }
    ensures { Clips rects.now n w tx clips.new }
{
    let part = part_of(w, tx);
    for k in 0..n {
        put_clip(clips, k, clip_of(rects, 64 * tx, part, k));
    }
}

fn number_at(list: &[i32], i: usize) -> usize
    requires { (i < length list.now) × (at list.now i ≡ pos (nat_abs (at list.now i))) }
    ensures { result ≡ nat_abs (at list.now i) }
{
    list[i] as usize
}

fn half_at(list: &[i32], i: usize) -> u64
    requires { i < length list.now }
    ensures { (result ≡ half_of (at list.now i)) × (result < 4294967296) }
{
    (list[i] as i64 + 2147483648) as u64
}

// Rectangle k lies on pixel row py.
pub fn clip_on(clips: &[i32], py: usize, k: usize) -> bool
    requires { (4 * k + 4 ≤ length clips.now) × Clipped (clip_at clips.now k) k clips.now }
    ensures { result ≡ on_row (clip_at clips.now k) py }
{
    if py < number_at(clips, 4 * k + 2) {
        return false;
    }
    py < number_at(clips, 4 * k + 3)
}

// What rectangle k holds of the rows that it lies on.
pub fn clip_mask(clips: &[i32], k: usize) -> u64
    requires { 4 * k + 4 ≤ length clips.now }
    ensures { result ≡ (clip_at clips.now k).mask }
{
    half_at(clips, 4 * k + 1) * 4294967296 + half_at(clips, 4 * k)
}
