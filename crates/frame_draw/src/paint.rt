// The functions that carry a picture, of 16-bit or of 32-bit words: a tile's samples drawn into it, document 01's "Colour" (words) and "A picture
// word is changed exactly if ..", and "the last such tile in message order decides". A row of 64 words is made once, by itself, where a word of it
// is drawn. What is promised is said of the words' numbers.
ghost use Rattle.std.specs.Prelude.{◌≡◌, ℕ, ◌+◌, ◌*◌, ◌≤◌, ◌<◌, length, get_or, map};
ghost use Rattle.frame_layout.specs.Reader.{quant_count, tile_count, rect_count, set_at, data_of, tiles_in, tiles_fault};
ghost use Rattle.frame_blocks.specs.Blocks.{rects_of, RegionGood};
ghost use Rattle.frame_blocks.specs.Judged.{in_set, SetSound};
ghost use Rattle.frame_draw.specs.Draw.{stores, row_place, tile_drawn};
ghost use Rattle.frame_draw.specs.Clips.{Clips};
ghost use Rattle.frame_draw.specs.Spans.{always, part_of, bit_at, InChannel};
ghost use Rattle.frame_draw.specs.Shown.{tiles_drawn};
ghost use Rattle.frame_draw.specs.Show.{Lists, tile_word};
ghost use Rattle.tile_back.specs.Word.{Plane, word_at};

use colour::{GlassWord, Rgb};

// The row's part in the channel, whole. Word by word: of a tile past the channel there is no range that could be copied.
fn put_part<W: GlassWord>(picture: &mut [W], w: usize, tx: usize, py: usize, row: &[W])
    requires { (py * w + w ≤ length picture.old) × (length row.now ≡ 64) × (tx < 65536) }
    ensures { map W.number picture.new ≡ stores always (row_place w tx py) (λ (x : ℕ). get_or (map W.number row.now) x 0) (part_of w tx) 0 (map W.number picture.old) }
{
    let part = crate::clip::part_of(w, tx);
    for x in 0..part {
        picture[py * w + (64 * tx + x)] = row[x];
    }
}

// Row y of a tile into its pixel row: the words whose bits are set; where those are the whole part, that is copied.
fn paint_row<W: GlassWord>(
    picture: &mut [W],
    s: crate::row::Strip,
    y: usize,
    ys: &[i32],
    cbs: &[i32],
    crs: &[i32],
    mask: u64,
)
    requires { (s.py * s.w + s.w ≤ length picture.old) × (y < 64) × (s.tx < 65536) × InChannel s.w s.tx mask × Plane ys.now × Plane cbs.now × Plane crs.now }
    ensures { map W.number picture.new ≡ stores (bit_at mask) (row_place s.w s.tx s.py) (λ (x : ℕ). word_at W.GLASS ys.now cbs.now crs.now (64 * y + x)) 64 0 (map W.number picture.old) }
{
    let w = s.w;
    let tx = s.tx;
    let py = s.py;
    let mut row = [W::pack(Rgb { r: 0, g: 0, b: 0 }); 64];
    tile_back::words_row(ys, cbs, crs, y, &mut row[..]);
    if mask == crate::clip::mask_of(0, crate::clip::part_of(w, tx)) {
        put_part(picture, w, tx, py, &row[..]);
        return;
    }
    for x in 0..64 {
        if (mask >> x) % 2 == 1 {
            picture[py * w + (64 * tx + x)] = row[x];
        }
    }
}

// A tile as far as it lies in the channel, held against the rectangles that are kept for it. No colour is made for a row that none holds.
fn paint_tile<W: GlassWord>(
    picture: &mut [W],
    s: crate::row::Spot,
    ys: &[i32],
    cbs: &[i32],
    crs: &[i32],
    rects: &[u8],
    clips: &[i32],
)
    requires { (s.h * s.w ≤ length picture.old) × Clips rects.now s.n s.w s.tx clips.now × (s.tx < 65536) × (s.ty < 65536) × Plane ys.now × Plane cbs.now × Plane crs.now }
    ensures { map W.number picture.new ≡ tile_drawn rects.now s.n (word_at W.GLASS ys.now cbs.now crs.now) s.w s.h s.tx s.ty (map W.number picture.old) }
{
    let w = s.w;
    let h = s.h;
    let tx = s.tx;
    let ty = s.ty;
    let n = s.n;
    let rows = crate::clip::part_of(h, ty);
    for y in 0..rows {
        let py = 64 * ty + y;
        let strip = crate::row::Strip { w, tx, py, n };
        let mask = crate::row::row_mask(rects, clips, strip);
        if mask != 0 {
            paint_row(picture, strip, y, ys, cbs, crs, mask);
        }
    }
}

// The draw pass over a frame whose blocks and tiles were checked, in message order: the region stands at 14.
pub fn show<W: GlassWord>(
    picture: &mut [W],
    p: crate::tiles::Pass,
    m: &[u8],
    ys: &mut [i32],
    cbs: &mut [i32],
    crs: &mut [i32],
    tmp: &mut [i32],
)
    requires { Lists ys.old cbs.old crs.old tmp.old × RegionGood m.now 14 × SetSound m.now p.sp × (0 ≡ tiles_fault (in_set p.mode m.now p.sp) p.w p.h (quant_count m.now p.sp) (data_of m.now p.sp) (tile_count m.now p.sp) 0) × (p.h * p.w ≤ length picture.old) }
    ensures { map W.number picture.new ≡ tiles_drawn (rects_of m.now 14) (rect_count m.now 14) (tile_word W.GLASS p.mode (set_at m.now p.sp)) p.w p.h (tiles_in (data_of m.now p.sp) (tile_count m.now p.sp) 0) (map W.number picture.old) }
{
    let n = wire::le16_at(m, p.sp + 16);
    let d = frame_blocks::block::tile_data(m, p.sp);
    let rects = frame_blocks::block::rects(m, 14);
    let mut at = 0;
    for _i in 0..n {
        let s = crate::tiles::ready_tile(p, m, at, ys, cbs, crs, tmp);
        paint_tile(picture, s, &ys[..], &cbs[..], &crs[..], rects, &tmp[..]);
        at += wire::le32_at(d, at + 2);
    }
}
