// The calls of document 02's request Five for C: settings from and to bytes, and the frame writer over luma's and chroma's quantisers. A set is a pointer to ten
// bytes, a list is a pointer and its length; the answer is the number of the first fault, 0 for done. What is read is stored on every answer, all 0 where it is
// refused; a writer's length is stored on every answer, refused 0. Each is one call of `settings` or of the panel's own and promises what that one does
// (specs/Cabinet). Nothing here has a `requires`.
ghost use Rattle.panel.specs.Cabinet.{ReadSettingsCall, WriteSettingsCall, WriteFrameSetsCall};

use bands::Quant;
use quants::Quants;
use settings::Settings;

// Reads the records of a store, for a reader whose newest version is given: 1, or 2.
#[unsafe(no_mangle)]
pub extern "C" fn xurbalenz_read_settings(
    newest: u8,
    bytes: &[u8],
    luma: &mut [u8; 10],
    chroma: &mut [u8; 10],
    mode: &mut u8,
) -> u8
    ensures { ReadSettingsCall newest bytes.now luma.new chroma.new mode.new result }
{
    let answer = settings::read::read_settings(newest, bytes);
    let s = settings::read::given(answer);
    let q = s.quants;
    let one = q.luma;
    let two = q.chroma;
    let first = one.v;
    let second = two.v;
    *luma = first;
    *chroma = second;
    *mode = s.mode;
    wire::number_of(answer)
}

// Writes settings: equal sets as version 1, else as version 2; `size` is their length in bytes, refused 0.
#[unsafe(no_mangle)]
pub extern "C" fn xurbalenz_write_settings(
    luma: &[u8; 10],
    chroma: &[u8; 10],
    mode: u8,
    out: &mut [u8],
    size: &mut usize,
) -> u8
    ensures { WriteSettingsCall luma.now chroma.now mode out.old out.new size.new result }
{
    let one = Quant { v: *luma };
    let two = Quant { v: *chroma };
    let q = Quants {
        luma: one,
        chroma: two,
    };
    let s = Settings {
        quants: q,
        mode: mode,
    };
    let w = settings::write::write_settings(s, out);
    *size = wire::count_of(w);
    wire::number_of(w)
}

// Writes one frame over the whole channel, with luma's and chroma's ten quantisers; `size` is its length in bytes, refused 0.
#[unsafe(no_mangle)]
pub extern "C" fn xurbalenz_write_frame_sets(
    width: usize,
    height: usize,
    mode: u8,
    luma: &[u8; 10],
    chroma: &[u8; 10],
    index: u32,
    pixels: &[u8],
    list: &mut [i32],
    scratch: &mut [i32],
    out: &mut [u8],
    size: &mut usize,
) -> u8
    ensures { WriteFrameSetsCall width height mode luma.now chroma.now index pixels.now list.old list.new scratch.old scratch.new out.old out.new size.new result }
{
    let one = Quant { v: *luma };
    let two = Quant { v: *chroma };
    let q = Quants {
        luma: one,
        chroma: two,
    };
    let w = crate::write_frame_sets(width, height, mode, q, index, pixels, list, scratch, out);
    *size = wire::count_of(w);
    wire::number_of(w)
}
