// A picture of words of 16 bits (5-6-5) or of 32 (8-8-8) as a BMP file of as many bits a pixel: its head, and the words of a row as bytes. specs/Bmp has the
// layout.
ghost use Rattle.std.specs.Prelude.{◌≡◌, ◌+◌, ◌*◌, ◌<◌, ◌≤◌, length};
ghost use Rattle.wire.specs.Le.{patch, written};
ghost use Rattle.app_pictures.specs.Bmp.{file_head, info_head, info_rest, masks, head_of, row_of, put_words};

use crate::word::Word;

// How a word says its colours: how many bits it has, and where red, green and blue are in it.
#[derive(Clone, Copy)]
pub struct Packing {
    pub bits: usize,
    pub red: usize,
    pub green: usize,
    pub blue: usize,
}

fn put_file_head(out: &mut [u8], size: usize)
    requires { (66 ≤ length out.old) × (size < 17179869184) }
    ensures { out.new ≡ patch out.old 0 (file_head size) }
{
    wire::put16_at(out, 0, 0x4D42);
    wire::put32_at(out, 2, 66 + size);
    wire::put32_at(out, 6, 0);
    wire::put32_at(out, 10, 66);
}

fn put_info_head(out: &mut [u8], bits: usize, width: usize, height: usize)
    requires { 66 ≤ length out.old }
    ensures { out.new ≡ patch out.old 14 (info_head bits width height) }
{
    wire::put32_at(out, 14, 40);
    wire::put32_at(out, 18, width);
    wire::put32_at(out, 22, height);
    wire::put_two16(out, 26, 1, bits);
    wire::put32_at(out, 30, 3);
}

fn put_info_rest(out: &mut [u8], size: usize)
    requires { 66 ≤ length out.old }
    ensures { out.new ≡ patch out.old 34 (info_rest size) }
{
    wire::put32_at(out, 34, size);
    wire::put32_at(out, 38, 2835);
    wire::put32_at(out, 42, 2835);
    wire::put32_at(out, 46, 0);
    wire::put32_at(out, 50, 0);
}

fn put_masks(out: &mut [u8], p: Packing)
    requires { 66 ≤ length out.old }
    ensures { out.new ≡ patch out.old 54 (masks p) }
{
    wire::put32_at(out, 54, p.red);
    wire::put32_at(out, 58, p.green);
    wire::put32_at(out, 62, p.blue);
}

fn put_parts(out: &mut [u8], p: Packing, width: usize, height: usize, size: usize)
    requires { (66 ≤ length out.old) × (size < 17179869184) }
    ensures { out.new ≡ written (head_of p width height size) out.old }
{
    put_file_head(out, size);
    put_info_head(out, p.bits, width, height);
    put_info_rest(out, size);
    put_masks(out, p);
}

// The bytes of all rows.
fn rows_size(row: usize, height: u16) -> usize
    requires { row ≤ 262140 }
    ensures { (result ≡ row * height) × (result < 17179869184) }
{
    row * height as usize
}

// The file's head: 66 bytes.
pub fn put_head<W: Word>(out: &mut [u8; 66], width: u16, height: u16)
    ensures { out.new ≡ head_of W.packing width height (W.row_size width * height) }
{
    let size = rows_size(W::row_size(width), height);
    put_parts(out, W::packing(), width as usize, height as usize, size);
}

// Words as bytes, low byte first, at the start of the output; nothing where there is no room.
pub fn put_words<W: Word>(words: &[W], out: &mut [u8])
    ensures { out.new ≡ put_words W.size W.bytes words.now out.old }
{
    let size = W::size();
    if out.len() / size < words.len() {
        return;
    }
    for (i, word) in words.iter().enumerate() {
        word.put_bytes(out, size * i);
    }
}

// The words of a picture's row, none where they are not all there.
pub fn row<W: Word>(picture: &[W], width: usize, r: usize) -> &[W]
    ensures { result.now ≡ row_of picture.now width r }
{
    if 4096 < width {
        return &picture[..0];
    }
    if 2048 < r {
        return &picture[..0];
    }
    let a = r * width;
    let e = a + width;
    if picture.len() < e {
        return &picture[..0];
    }
    &picture[a..e]
}
