// The picture for people as a BMP: the second picture dimmed, the differing tiles framed. Its rows go from below, so each is looked up in the file again.
ghost use Rattle.std.specs.Prelude.{◌≤◌};

use app_pictures::out::Unwritten;
use app_pictures::word::Word;
use std::fs::File;
use std::os::fd::AsRawFd;

// The words of row y, marked, as the bytes of a row of the BMP, to the output.
fn write_row(
    out: i32,
    file: &Option<File>,
    width: u16,
    height: u16,
    y: u16,
    counts: &[u32],
) -> Result<(), Unwritten>
    requires { width ≤ 4096 }
{
    let mut row = [0u8; 8192];
    let mut words = [0u16; 4096];
    let n = crate::files::read_row(file, width, y, &mut row);
    tile_diff::mark::mark_row(
        app_text::loading::first(&row, n),
        width,
        height,
        y,
        counts,
        &mut words,
    );
    app_pictures::bmp::put_words(&words, &mut row);
    app_pictures::out::write_start(out, &row, u16::row_size(width))
}

fn write_bmp(
    out: i32,
    file: &Option<File>,
    width: u16,
    height: u16,
    counts: &[u32],
) -> Result<(), Unwritten>
    requires { width ≤ 4096 }
{
    app_pictures::out::write_bmp_head::<u16>(out, width, height)?;
    for y in (0..height).rev() {
        write_row(out, file, width, height, y, counts)?;
    }
    Ok(())
}

// The BMP of a second picture whose counts are known, to the file that argument i names.
pub fn bmp_out(
    rt: &HostRuntime,
    i: usize,
    file: &Option<File>,
    width: u16,
    height: u16,
    counts: &[u32],
)
    requires { width ≤ 4096 }
    ensures { Unit }
{
    if let Some(out) = app_pictures::out::open_output(rt, i) {
        app_pictures::out::say_written(write_bmp(out.as_raw_fd(), file, width, height, counts));
    }
}
