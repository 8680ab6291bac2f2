// What other senders write made acceptable, for C, under the C names: each is one call of the panel's own of that name (panel's filter.rt) and promises what that
// one does. Nothing here has a `requires`.
ghost use Rattle.panel.specs.Tidy.{TidyFrameCall, TidyHeaderCall, TidyFlushCall};

// Passes one frame on: as it came where the panel accepts it or cannot be brought to, else with its codes tidied by the sender's number. The size and the mode are those
// of the headers. `told` is how many bytes go on and how many codes were changed.
#[unsafe(no_mangle)]
pub extern "C" fn xurbalenz_tidy_frame(
    sender: u8,
    width: usize,
    height: usize,
    mode: u8,
    message: &[u8],
    list: &mut [i32],
    out: &mut [u8],
    told: &mut [usize; 2],
) -> u8
    ensures { TidyFrameCall sender width height mode message.now list.old list.new out.old out.new told.new result }
{
    panel::filter::xurbalenz_tidy_frame(sender, width, height, mode, message, list, out, told)
}

// Gives a header block to the order of the headers: what goes on now is the output's first `size` bytes, what waits is held in 38 lent bytes, all zeros at first.
#[unsafe(no_mangle)]
pub extern "C" fn xurbalenz_tidy_header(
    held: &mut [u8],
    block: &[u8],
    out: &mut [u8],
    size: &mut usize,
) -> u8
    ensures { TidyHeaderCall held.old held.new block.now out.old out.new size.new result }
{
    panel::filter::xurbalenz_tidy_header(held, block, out, size)
}

// Lets go what waits: before a frame, and at the end of the stream.
#[unsafe(no_mangle)]
pub extern "C" fn xurbalenz_tidy_flush(held: &mut [u8], out: &mut [u8], size: &mut usize) -> u8
    ensures { TidyFlushCall held.old held.new out.old out.new size.new result }
{
    panel::filter::xurbalenz_tidy_flush(held, out, size)
}
