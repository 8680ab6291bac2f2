// The six calls for C under their C names, the frame call for either word size, and the numbers that name layout and version. Each is one call of the panel's own of that
// name (panel's edge.rt) and promises what that one does. Nothing here has a `requires`.
ghost use Rattle.std.specs.Prelude.{◌≡◌};
ghost use Rattle.panel.specs.Edge.{ReadHeaderCall, ReadFrameCall, ReadComponentCall, WriteComponentCall, WriteHeadersCall, WriteFrameCall};

use session::Session;

// Reads one component's code into a list of 4,096 numbers; `bits` is the code's length in bits on 0 and 11, else 0.
#[unsafe(no_mangle)]
pub extern "C" fn xurbalenz_read_component(
    mode: u8,
    code: &[u8],
    list: &mut [i32],
    bits: &mut usize,
) -> u8
    ensures { ReadComponentCall mode code.now list.old list.new bits.new result }
{
    panel::edge::xurbalenz_read_component(mode, code, list, bits)
}

// Writes one component's code; `size` is its length in bytes, refused 0.
#[unsafe(no_mangle)]
pub extern "C" fn xurbalenz_write_component(
    mode: u8,
    list: &[i32],
    out: &mut [u8],
    size: &mut usize,
) -> u8
    ensures { WriteComponentCall mode list.now out.old out.new size.new result }
{
    panel::edge::xurbalenz_write_component(mode, list, out, size)
}

// Writes the four header blocks; `size` is their length in bytes, refused 0.
#[unsafe(no_mangle)]
pub extern "C" fn xurbalenz_write_headers(
    width: usize,
    height: usize,
    mode: u8,
    out: &mut [u8],
    size: &mut usize,
) -> u8
    ensures { WriteHeadersCall width height mode out.old out.new size.new result }
{
    panel::edge::xurbalenz_write_headers(width, height, mode, out, size)
}

// Writes one frame over the whole channel, with the ten quantisers behind `quant`; `size` is its length in bytes, refused 0.
#[unsafe(no_mangle)]
pub extern "C" fn xurbalenz_write_frame(
    width: usize,
    height: usize,
    mode: u8,
    quant: &[u8; 10],
    index: u32,
    pixels: &[u8],
    list: &mut [i32],
    scratch: &mut [i32],
    out: &mut [u8],
    size: &mut usize,
) -> u8
    ensures { WriteFrameCall width height mode quant.now index pixels.now list.old list.new scratch.old scratch.new out.old out.new size.new result }
{
    panel::edge::xurbalenz_write_frame(
        width, height, mode, quant, index, pixels, list, scratch, out, size,
    )
}

// The bytes of the session record. Its name carries the layout: header and crate for these 16 bytes call it, and so do not link with an archive whose record
// is laid out otherwise.
#[unsafe(no_mangle)]
pub extern "C" fn xurbalenz_record_16() -> u8
    ensures { result ≡ 16 }
{
    panel::edge::xurbalenz_record_16()
}

// The version: 10,000 x major + 100 x minor + patch, as in the header (XURBALENZ_VERSION), so that a program can tell an archive of another one.
#[unsafe(no_mangle)]
pub extern "C" fn xurbalenz_version() -> u32
    ensures { result ≡ 502 }
{
    panel::edge::xurbalenz_version()
}

// Reads one header block, which is the whole message; the record is changed in place, and a refused header leaves it as it was.
#[unsafe(no_mangle)]
pub extern "C" fn xurbalenz_read_header(s: &mut Session, message: &[u8]) -> u8
    ensures { ReadHeaderCall s.old s.new message.now result }
{
    panel::edge::xurbalenz_read_header(s, message)
}

// Reads one frame, which is the whole message, and draws it into a picture of 16-bit words; `tiles` is numTiles, refused 0. The record is left as it is.
#[unsafe(no_mangle)]
pub extern "C" fn xurbalenz_read_frame(
    s: &mut Session,
    message: &[u8],
    picture: &mut [u16],
    y: &mut [i32],
    cb: &mut [i32],
    cr: &mut [i32],
    scratch: &mut [i32],
    tiles: &mut usize,
) -> u8
    ensures { ReadFrameCall 0 s.old s.new message.now picture.old y.old cb.old cr.old scratch.old picture.new y.new cb.new cr.new scratch.new tiles.new result }
{
    panel::edge::xurbalenz_read_frame(s, message, picture, y, cb, cr, scratch, tiles)
}

#[unsafe(no_mangle)]
pub extern "C" fn xurbalenz_read_frame_32(
    s: &mut Session,
    message: &[u8],
    picture: &mut [u32],
    y: &mut [i32],
    cb: &mut [i32],
    cr: &mut [i32],
    scratch: &mut [i32],
    tiles: &mut usize,
) -> u8
    ensures { ReadFrameCall 1 s.old s.new message.now picture.old y.old cb.old cr.old scratch.old picture.new y.new cb.new cr.new scratch.new tiles.new result }
{
    panel::edge::xurbalenz_read_frame_32(s, message, picture, y, cb, cr, scratch, tiles)
}
