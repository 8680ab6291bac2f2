// The six calls for C, the frame call for pictures of either word size. A pointer is a reference, a list is a pointer and its length; the answer is 01's number, and 01's value is stored
// behind the last reference on every answer. Each is one call of the panel's own and promises what that one does (specs/Edge). Nothing here has a `requires`.
ghost use Rattle.std.specs.Prelude.{◌≡◌, map};
ghost use Rattle.panel.specs.Edge.{ReadHeaderCall, ReadFrameCall, ReadComponentCall, WriteComponentCall, WriteHeadersCall, WriteFrameCall};

use bands::Quant;
use colour::GlassWord;
use session::Session;

// Reads one component's code into a list of 4,096 numbers; `bits` is the code's length in bits on 0 and 11, else 0.
#[unsafe(no_mangle)]
pub extern "C" fn xurbalenz_read_component(
    mode: u8,
    code: &[u8],
    list: &mut [i32],
    bits: &mut usize,
) -> u8
    ensures { ReadComponentCall mode code.now list.old list.new bits.new result }
{
    let r = crate::read_component(mode, code, list);
    *bits = code::read::reading_bits(r);
    code::read::reading_number(r)
}

// Writes one component's code; `size` is its length in bytes, refused 0.
#[unsafe(no_mangle)]
pub extern "C" fn xurbalenz_write_component(
    mode: u8,
    list: &[i32],
    out: &mut [u8],
    size: &mut usize,
) -> u8
    ensures { WriteComponentCall mode list.now out.old out.new size.new result }
{
    let w = crate::write_component(mode, list, out);
    *size = wire::count_of(w);
    wire::number_of(w)
}

// Writes the four header blocks; `size` is their length in bytes, refused 0.
#[unsafe(no_mangle)]
pub extern "C" fn xurbalenz_write_headers(
    width: usize,
    height: usize,
    mode: u8,
    out: &mut [u8],
    size: &mut usize,
) -> u8
    ensures { WriteHeadersCall width height mode out.old out.new size.new result }
{
    let w = crate::write_headers(width, height, mode, out);
    *size = wire::count_of(w);
    wire::number_of(w)
}

// Writes one frame over the whole channel, with the ten quantisers behind `quant`; `size` is its length in bytes, refused 0.
#[unsafe(no_mangle)]
pub extern "C" fn xurbalenz_write_frame(
    width: usize,
    height: usize,
    mode: u8,
    quant: &[u8; 10],
    index: u32,
    pixels: &[u8],
    list: &mut [i32],
    scratch: &mut [i32],
    out: &mut [u8],
    size: &mut usize,
) -> u8
    ensures { WriteFrameCall width height mode quant.now index pixels.now list.old list.new scratch.old scratch.new out.old out.new size.new result }
{
    let q = Quant { v: *quant };
    let w = crate::write_frame(width, height, mode, q, index, pixels, list, scratch, out);
    *size = wire::count_of(w);
    wire::number_of(w)
}

// The bytes of the session record. Its name carries the layout: header and crate for these 16 bytes call it, and so do not link with an archive whose record
// is laid out otherwise.
#[unsafe(no_mangle)]
pub extern "C" fn xurbalenz_record_16() -> u8
    ensures { result ≡ 16 }
{
    16
}

// The version: 10,000 x major + 100 x minor + patch, as in the header (XURBALENZ_VERSION), so that a program can tell an archive of another one.
#[unsafe(no_mangle)]
pub extern "C" fn xurbalenz_version() -> u32
    ensures { result ≡ 502 }
{
    502
}

// Reads one header block, which is the whole message; the record is changed in place, and a refused header leaves it as it was.
#[unsafe(no_mangle)]
pub extern "C" fn xurbalenz_read_header(s: &mut Session, message: &[u8]) -> u8
    ensures { ReadHeaderCall s.old s.new message.now result }
{
    let answer = crate::read_header(*s, message);
    *s = session::header_record(answer, *s);
    wire::number_of(answer)
}

// The frame call with the record by value, for a picture of words of either size.
fn frame_call<W: GlassWord>(
    s: Session,
    message: &[u8],
    picture: &mut [W],
    y: &mut [i32],
    cb: &mut [i32],
    cr: &mut [i32],
    scratch: &mut [i32],
    tiles: &mut usize,
) -> u8
    ensures { ReadFrameCall W.GLASS s s message.now (map W.number picture.old) y.old cb.old cr.old scratch.old (map W.number picture.new) y.new cb.new cr.new scratch.new tiles.new result }
{
    let f = crate::read_frame(s, message, picture, y, cb, cr, scratch);
    *tiles = wire::count_of(f);
    wire::number_of(f)
}

// Reads one frame, which is the whole message, and draws it into a picture of 16-bit words; `tiles` is numTiles, refused 0. The record is left as it is.
#[unsafe(no_mangle)]
pub extern "C" fn xurbalenz_read_frame(
    s: &mut Session,
    message: &[u8],
    picture: &mut [u16],
    y: &mut [i32],
    cb: &mut [i32],
    cr: &mut [i32],
    scratch: &mut [i32],
    tiles: &mut usize,
) -> u8
    ensures { ReadFrameCall 0 s.old s.new message.now picture.old y.old cb.old cr.old scratch.old picture.new y.new cb.new cr.new scratch.new tiles.new result }
{
    frame_call(*s, message, picture, y, cb, cr, scratch, tiles)
}

// The same for a picture of 32-bit words.
#[unsafe(no_mangle)]
pub extern "C" fn xurbalenz_read_frame_32(
    s: &mut Session,
    message: &[u8],
    picture: &mut [u32],
    y: &mut [i32],
    cb: &mut [i32],
    cr: &mut [i32],
    scratch: &mut [i32],
    tiles: &mut usize,
) -> u8
    ensures { ReadFrameCall 1 s.old s.new message.now picture.old y.old cb.old cr.old scratch.old picture.new y.new cb.new cr.new scratch.new tiles.new result }
{
    frame_call(*s, message, picture, y, cb, cr, scratch, tiles)
}
