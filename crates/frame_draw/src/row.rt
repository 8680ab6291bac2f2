// Drawing, the sentence of document 01's "Blocks" on which words of the picture are changed, with document 02's request Three on a
// region with no rectangles. A pixel row of a tile goes over the rectangles once: what each holds of the row's 64 words is 64 bits, and those
// are put together; then (`paint`) each word is stored once, where tile, channel and rectangle agree. No picture is carried here.
ghost use Rattle.std.specs.Prelude.{◌≡◌, ◌+◌, ◌*◌, ◌≤◌, ◌<◌, length};
ghost use Rattle.frame_draw.specs.Draw.{inside, holds};
ghost use Rattle.frame_draw.specs.Clips.{Clips};
ghost use Rattle.frame_draw.specs.Spans.{last_of, RowMask, covers, asked};

// The last of a tile's columns (or rows) in the channel, counted in the picture.
fn last_of(w: usize, tx: usize) -> usize
    requires { tx < 65536 }
    ensures { result ≡ last_of w tx }
{
    64 * tx + crate::clip::part_of(w, tx).saturating_sub(1)
}

// ---- a rectangle

fn is_inside(x: usize, y: usize, w: usize, h: usize, px: usize, py: usize) -> bool
    requires { (x < 65536) × (y < 65536) × (w < 65536) × (h < 65536) }
    ensures { result ≡ inside x y w h px py }
{
    if px < x {
        return false;
    }
    if x + w <= px {
        return false;
    }
    if py < y {
        return false;
    }
    py < y + h
}

// Rectangle k of a region holds the pixel.
fn rect_holds(rects: &[u8], px: usize, py: usize, k: usize) -> bool
    requires { 8 * k + 8 ≤ length rects.now }
    ensures { result ≡ holds rects.now px py k }
{
    let x = wire::le16_at(rects, 8 * k);
    let y = wire::le16_at(rects, 8 * k + 2);
    let w = wire::le16_at(rects, 8 * k + 4);
    let h = wire::le16_at(rects, 8 * k + 6);
    is_inside(x, y, w, h, px, py)
}

// ---- a row

// A pixel row of a tile: the channel's width, the tile's column, the row in the picture, and how many rectangles it is held against.
#[derive(Clone, Copy)]
pub struct Strip {
    pub w: usize,
    pub tx: usize,
    pub py: usize,
    pub n: usize,
}

// The words of a tile's pixel row that are drawn, as the bits of a number. The rectangles are left at the first after which every word of the
// row that lies in the channel is held; a region with none is one rectangle over the whole channel. They are read from where they are kept
// for the tile; the region's bytes are what the promise speaks of.
pub fn row_mask(rects: &[u8], clips: &[i32], s: Strip) -> u64
    requires { (s.tx < 65536) × Clips rects.now s.n s.w s.tx clips.now }
    ensures { RowMask rects.now s.n s.w s.tx s.py result }
{
    let w = s.w;
    let tx = s.tx;
    let py = s.py;
    let n = s.n;
    let full = crate::clip::mask_of(0, crate::clip::part_of(w, tx));
    if n == 0 {
        return full;
    }
    let mut m: u64 = 0;
    'rectangles: for k in 0..n {
        if crate::clip::clip_on(clips, py, k) {
            m |= crate::clip::clip_mask(clips, k);
            if m == full {
                break 'rectangles;
            }
        }
    }
    m
}

// ---- a tile

// A tile in the channel: the channel's size, the tile's column and row, and how many rectangles it is held against.
#[derive(Clone, Copy)]
pub struct Spot {
    pub w: usize,
    pub h: usize,
    pub tx: usize,
    pub ty: usize,
    pub n: usize,
}

// Rectangle k of a region holds two pixels, and so all that lie between them.
fn rect_covers(rects: &[u8], px: usize, py: usize, qx: usize, qy: usize, k: usize) -> bool
    requires { 8 * k + 8 ≤ length rects.now }
    ensures { result ≡ covers rects.now px py qx qy k }
{
    if rect_holds(rects, px, py, k) {
        return rect_holds(rects, qx, qy, k);
    }
    false
}

// So many rectangles a tile's rows have to be held against: none where one of them holds all of the tile that lies in the channel, since
// a region with none is the whole channel.
pub fn asked_of(rects: &[u8], n: usize, w: usize, h: usize, tx: usize, ty: usize) -> usize
    requires { (8 * n ≤ length rects.now) × (tx < 65536) × (ty < 65536) }
    ensures { result ≡ asked rects.now n w h tx ty }
{
    let right = last_of(w, tx);
    let bottom = last_of(h, ty);
    for k in 0..n {
        if rect_covers(rects, 64 * tx, 64 * ty, right, bottom, k) {
            return 0;
        }
    }
    n
}
