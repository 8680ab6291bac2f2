// The frame writer's fixed pieces (document 01, "Blocks" and "The frame writer"; 001, 2.2.2.3): everything of a frame but the component
// codes. Blocks are opened with their lengths still 0, and "lengths are filled in afterwards inside the output".
#![tactic(auto)]

ghost use Rattle.std.specs.Prelude.{◌≡◌, ◌+◌, ◌*◌, ◌≤◌, ◌<◌, length};
ghost use Rattle.wire.specs.Le.{patch};
ghost use Rattle.frame_layout.specs.Bytes.{begin_of, region_of, props_of, end_of};
ghost use Rattle.bands.specs.Bands.{QuantGood};
ghost use Rattle.quants.specs.Quants.{sets_of, chroma_index};
ghost use Rattle.frame_pieces.specs.Parts.{head_of, filled, set_head_of, front_with, closed, cols_of, tiles_no, pixels_good};

use quants::Quants;

// The first 19 bytes of a tile, its lengths still 0; Y's quantiser index is 0, and chroma's as given.
pub fn put_head(out: &mut [u8], at: usize, chroma: u8, x: usize, y: usize)
    requires { at + 19 ≤ length out.old }
    ensures { out.new ≡ patch out.old at (head_of chroma x y 0 0 0 0) }
{
    wire::open_block(out, at, 0xCAC3);
    wire::put_two8(out, at + 6, 0, chroma);
    wire::put8_at(out, at + 8, chroma);
    wire::put_two16(out, at + 9, x, y);
    wire::put_two16(out, at + 13, 0, 0);
    wire::put16_at(out, at + 17, 0);
}

// The four lengths of a tile, filled in: blockLen, then those of Y, Cb and Cr.
#[tactic(auto, unfolding(crate::specs::Parts::filled))]
pub fn fill_tile(out: &mut [u8], at: usize, len: usize, ly: usize, lcb: usize, lcr: usize)
    requires { at + 19 ≤ length out.old }
    ensures { out.new ≡ filled out.old at len ly lcb lcr }
{
    wire::put32_at(out, at + 2, len);
    wire::put16_at(out, at + 13, ly);
    wire::put16_at(out, at + 15, lcb);
    wire::put16_at(out, at + 17, lcr);
}

fn put_begin(out: &mut [u8], idx: usize)
    requires { 64 ≤ length out.old }
    ensures { out.new ≡ patch out.old 0 (begin_of idx) }
{
    wire::open_block(out, 0, 0xCCC4);
    wire::put_two8(out, 6, 1, 0);
    wire::put32_at(out, 8, idx);
    wire::put16_at(out, 12, 1);
    wire::put32_at(out, 2, 14);
}

// One rectangle over the whole.
fn put_region(out: &mut [u8], w: usize, h: usize)
    requires { 64 ≤ length out.old }
    ensures { out.new ≡ patch out.old 14 (region_of w h) }
{
    wire::open_block(out, 14, 0xCCC6);
    wire::put_two8(out, 20, 1, 0);
    wire::put8_at(out, 22, 1);
    wire::put16_at(out, 23, 1);
    wire::put_two16(out, 25, 0, 0);
    wire::put_two16(out, 29, w, h);
    wire::put_two16(out, 33, 0xCAC1, 1);
    wire::put32_at(out, 16, 23);
}

#[tactic(auto, unfolding(frame_layout::specs::Bytes::props_of))]
fn props(et: usize) -> usize
    requires { et < 16 }
    ensures { result ≡ props_of et }
{
    16465 + 1024 * et
}

// The head of the tileset with so many quantiser sets, its two lengths still 0.
fn put_set(out: &mut [u8], et: usize, sets: u8, n: usize)
    requires { (64 ≤ length out.old) × (et < 16) }
    ensures { out.new ≡ patch out.old 37 (set_head_of et sets n 0 0) }
{
    wire::open_block(out, 37, 0xCCC7);
    wire::put_two8(out, 43, 1, 0);
    wire::put_two16(out, 45, 0xCAC2, 0);
    wire::put16_at(out, 49, props(et));
    wire::put_two8(out, 51, sets, 64);
    wire::put16_at(out, 53, n);
    wire::put32_at(out, 55, 0);
}

// All that stands before the tiles: 64 bytes, or 69 with two quantiser sets; the tileset's two lengths still 0.
pub fn put_front(out: &mut [u8], q: Quants, idx: usize, w: usize, h: usize, et: usize, n: usize)
    requires { (64 + 5 * chroma_index q ≤ length out.old) × QuantGood q.luma.v × QuantGood q.chroma.v × (et < 16) }
    ensures { out.new ≡ patch out.old 0 (front_with idx w h et (sets_of q) n 0 0) }
{
    put_begin(out, idx);
    put_region(out, w, h);
    put_set(out, et, 1 + quants::chroma_index(q), n);
    quants::put_sets(out, 59, q);
}

fn put_end(out: &mut [u8], at: usize)
    requires { at + 8 ≤ length out.old }
    ensures { out.new ≡ patch out.old at end_of }
{
    wire::open_block(out, at, 0xCCC5);
    wire::put_two8(out, at + 6, 1, 0);
    wire::put32_at(out, at + 2, 8);
}

// The frame end behind the last tile, and the tileset's two lengths filled in: its tiles stand from a place on.
#[tactic(auto, unfolding(crate::specs::Parts::closed))]
pub fn close_frame(out: &mut [u8], from: usize, at: usize)
    requires { (64 ≤ from) × (from ≤ at) × (at + 8 ≤ length out.old) }
    ensures { out.new ≡ closed out.old from at }
{
    put_end(out, at);
    wire::put32_at(out, 39, at - 37);
    wire::put32_at(out, 55, at - from);
}

// Tiles a row, or a column.
#[tactic(auto, unfolding(crate::specs::Parts::cols_of))]
pub fn cols_of(w: usize) -> usize
    requires { w ≤ 4096 }
    ensures { (result ≡ cols_of w) × (64 * result ≤ w + 63) }
{
    (w + 63) / 64
}

#[tactic(auto, using(crate::specs::laws::Parts::few_tiles), unfolding(crate::specs::Parts::tiles_no))]
pub fn tiles_no(w: usize, h: usize) -> usize
    requires { (w ≤ 4096) × (h ≤ 2048) }
    ensures { (result ≡ tiles_no w h) × (result ≤ 2048) }
{
    cols_of(w) * cols_of(h)
}

// Is a picture's length three bytes a pixel?
#[tactic(auto, using(crate::specs::laws::Parts::size_small), unfolding(crate::specs::Parts::pixels_good))]
pub fn is_pixels(w: usize, h: usize, pixels: usize) -> bool
    requires { (w ≤ 4096) × (h ≤ 2048) }
    ensures { result ≡ pixels_good w h pixels }
{
    pixels == 3 * (w * h)
}
