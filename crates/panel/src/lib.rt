// The public edge: the calls of document 01 with its numbers ("Numbers the fitter sees"). An answer is a `Result`, refused for one of 01's reasons
// (`wire::Refusal`), or the component reader's own, and definitions give its number and its values for every case. Any input is answered: nothing here
// has a `requires`.
#![tactic(auto)]

ghost use Rattle.std.specs.Prelude.{◌≡◌, map};
ghost use Rattle.session.specs.Header.{header_reading};
ghost use Rattle.headers.specs.Headers.{HeadersWritten};
ghost use Rattle.code.specs.Read.{ComponentRead};
ghost use Rattle.code_write.specs.Write.{ComponentWritten};
ghost use Rattle.frame.specs.Frame.{FrameRead};
ghost use Rattle.frame_write.specs.FrameWrite.{FrameWritten};
ghost use Rattle.frame_write.specs.Sets.{FrameWrittenOver};

use bands::Quant;
use code::read::Reading;
use colour::GlassWord;
use quants::Quants;
use session::Session;
use wire::Refusal;

pub mod cabinet;
pub mod capabilities;
pub mod collector;
pub mod differ;
pub mod edge;
pub mod filter;
pub mod short;

// Reads one header block, which is the whole message.
pub fn read_header(s: Session, message: &[u8]) -> Result<Session, Refusal>
    ensures { result ≡ header_reading s message.now }
{
    session::take_header(s, message)
}

// Reads one component's code into a list of 4,096 numbers.
pub fn read_component(mode: u8, code: &[u8], list: &mut [i32]) -> Reading
    ensures { ComponentRead mode code.now list.old list.new result }
{
    code::read::read_component(mode, code, list)
}

// Writes one component's code: the one code of the list.
pub fn write_component(mode: u8, list: &[i32], out: &mut [u8]) -> Result<usize, Refusal>
    ensures { ComponentWritten mode list.now out.old out.new result }
{
    code_write::call::write_component(mode, list, out)
}

// Writes the four header blocks, 47 bytes.
pub fn write_headers(
    width: usize,
    height: usize,
    mode: u8,
    out: &mut [u8],
) -> Result<usize, Refusal>
    ensures { HeadersWritten width height mode out.old out.new result }
{
    headers::write_headers(width, height, mode, out)
}

// Reads one frame, begin to end, which is the whole message, and draws it into a picture of 16-bit or of 32-bit words; the record is left as it is.
pub fn read_frame<W: GlassWord>(
    s: Session,
    message: &[u8],
    picture: &mut [W],
    y: &mut [i32],
    cb: &mut [i32],
    cr: &mut [i32],
    scratch: &mut [i32],
) -> Result<usize, Refusal>
    ensures { FrameRead W.GLASS s message.now (map W.number picture.old) y.old cb.old cr.old scratch.old (map W.number picture.new) y.new cb.new cr.new scratch.new result }
{
    frame::call::take_frame(s, message, picture, y, cb, cr, scratch)
}

// Writes one frame over the whole channel: three bytes a pixel, one quantiser set, two work lists.
pub fn write_frame(
    width: usize,
    height: usize,
    mode: u8,
    q: Quant,
    index: u32,
    pixels: &[u8],
    list: &mut [i32],
    scratch: &mut [i32],
    out: &mut [u8],
) -> Result<usize, Refusal>
    ensures { FrameWritten width height mode q.v index pixels.now list.old list.new scratch.old scratch.new out.old out.new result }
{
    frame_send::write_frame(width, height, mode, q, index, pixels, list, scratch, out)
}

// The same with luma's and chroma's quantisers; where they are equal it writes what `write_frame` writes.
pub fn write_frame_sets(
    width: usize,
    height: usize,
    mode: u8,
    q: Quants,
    index: u32,
    pixels: &[u8],
    list: &mut [i32],
    scratch: &mut [i32],
    out: &mut [u8],
) -> Result<usize, Refusal>
    ensures { FrameWrittenOver width height mode q index pixels.now list.old list.new scratch.old scratch.new out.old out.new result }
{
    frame_send::write_frame_sets(width, height, mode, q, index, pixels, list, scratch, out)
}
