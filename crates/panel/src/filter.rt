// What other senders write made acceptable, for C: calls of `tidy`, which promise what those do (specs/Tidy). A list is a pointer and its length; the answer is the
// number of the first fault, 0 for done; lengths and the count are stored on every answer, refused 0. Nothing here has a `requires`.
ghost use Rattle.std.specs.Prelude.{◌≡◌};
ghost use Rattle.panel.specs.Tidy.{side_of, TidyFrameCall, TidyHeaderCall, TidyFlushCall};

// A side of the picture in 16 bits; a number that has more is no size, and neither is 0.
fn side(n: usize) -> u16
    ensures { result ≡ side_of n }
{
    if 65535 < n {
        return 0;
    }
    n as u16
}

// Passes one frame on: as it came where the panel accepts it or cannot be brought to, else with its codes tidied by the sender's number. The size and the mode are those
// of the headers. `told` is how many bytes go on and how many codes were changed.
#[unsafe(no_mangle)]
pub extern "C" fn xurbalenz_tidy_frame(
    sender: u8,
    width: usize,
    height: usize,
    mode: u8,
    message: &[u8],
    list: &mut [i32],
    out: &mut [u8],
    told: &mut [usize; 2],
) -> u8
    ensures { TidyFrameCall sender width height mode message.now list.old list.new out.old out.new told.new result }
{
    let s = session::of_numbers(4, side(width), side(height), mode);
    let t = tidy::frames::tidy_frame(sender, s, message, list, out);
    let on = tidy::frames::told(t);
    *told = [on.size, on.cut];
    wire::number_of(t)
}

// Gives a header block to the order of the headers: what goes on now is the output's first `size` bytes, what waits is held in 38 lent bytes, all zeros at first.
#[unsafe(no_mangle)]
pub extern "C" fn xurbalenz_tidy_header(
    held: &mut [u8],
    block: &[u8],
    out: &mut [u8],
    size: &mut usize,
) -> u8
    ensures { TidyHeaderCall held.old held.new block.now out.old out.new size.new result }
{
    let p = tidy::held::give_held(held, block, out);
    *size = wire::count_of(p);
    wire::number_of(p)
}

// Lets go what waits: before a frame, and at the end of the stream.
#[unsafe(no_mangle)]
pub extern "C" fn xurbalenz_tidy_flush(held: &mut [u8], out: &mut [u8], size: &mut usize) -> u8
    ensures { TidyFlushCall held.old held.new out.old out.new size.new result }
{
    let p = tidy::held::flush_held(held, out);
    *size = wire::count_of(p);
    wire::number_of(p)
}
