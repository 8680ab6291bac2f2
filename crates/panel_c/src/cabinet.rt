// The calls of document 02's request Five for C under their C names: each is one call of the panel's own of that name (panel's cabinet.rt) and promises what that
// one does. Nothing here has a `requires`.
ghost use Rattle.panel.specs.Cabinet.{ReadSettingsCall, WriteSettingsCall, WriteFrameSetsCall};

// Reads the records of a store, for a reader whose newest version is given: 1, or 2.
#[unsafe(no_mangle)]
pub extern "C" fn xurbalenz_read_settings(
    newest: u8,
    bytes: &[u8],
    luma: &mut [u8; 10],
    chroma: &mut [u8; 10],
    mode: &mut u8,
) -> u8
    ensures { ReadSettingsCall newest bytes.now luma.new chroma.new mode.new result }
{
    panel::cabinet::xurbalenz_read_settings(newest, bytes, luma, chroma, mode)
}

// Writes settings: equal sets as version 1, else as version 2; `size` is their length in bytes, refused 0.
#[unsafe(no_mangle)]
pub extern "C" fn xurbalenz_write_settings(
    luma: &[u8; 10],
    chroma: &[u8; 10],
    mode: u8,
    out: &mut [u8],
    size: &mut usize,
) -> u8
    ensures { WriteSettingsCall luma.now chroma.now mode out.old out.new size.new result }
{
    panel::cabinet::xurbalenz_write_settings(luma, chroma, mode, out, size)
}

// Writes one frame over the whole channel, with luma's and chroma's ten quantisers; `size` is its length in bytes, refused 0.
#[unsafe(no_mangle)]
pub extern "C" fn xurbalenz_write_frame_sets(
    width: usize,
    height: usize,
    mode: u8,
    luma: &[u8; 10],
    chroma: &[u8; 10],
    index: u32,
    pixels: &[u8],
    list: &mut [i32],
    scratch: &mut [i32],
    out: &mut [u8],
    size: &mut usize,
) -> u8
    ensures { WriteFrameSetsCall width height mode luma.now chroma.now index pixels.now list.old list.new scratch.old scratch.new out.old out.new size.new result }
{
    panel::cabinet::xurbalenz_write_frame_sets(
        width, height, mode, luma, chroma, index, pixels, list, scratch, out, size,
    )
}
