// The wavelet of 001's worked sample (4.2.4.3), level by level, each band and each pass against its stage: 01's "Bands and the wavelet" as the sample has it.
// No section of document 01 is made true here; `sample` runs it.
ghost use Rattle.std.specs.Prelude.{◌≡◌, ◌≤◌, length};
ghost use Rattle.sample.specs.Waves.{is_ready, levelled};

// Whether the level whose bands are n by n can be made.
fn ready(work: &[i32], tmp: &[i32], n: usize) -> bool
    ensures { result ≡ is_ready work.now (length tmp.now) n }
{
    if n < 2 {
        return false;
    }
    if 32 < n {
        return false;
    }
    if work.len() != 4096 {
        return false;
    }
    if tmp.len() != 4096 {
        return false;
    }
    code_write::call::in_range(work)
}

// The row pass of that level, where it can be made.
fn rows(work: &[i32], tmp: &mut [i32], n: usize) {
    if !ready(work, tmp, n) {
        return;
    }
    let k = 4 * (n * n);
    let a = 4096 - k;
    let e = work.len();
    let z = 0;
    wave_back::tile::row_pass(&work[a..e], &mut tmp[z..k], n);
}

// The whole level, where it can be made.
fn level(work: &mut [i32], tmp: &mut [i32], n: usize)
    ensures { work.new ≡ levelled n (length tmp.old) work.old }
{
    if !ready(work, tmp, n) {
        return;
    }
    wave_back::tile::level_from(work, tmp, 4096 - 4 * (n * n), n, 2 * n);
}

// The name of the printed rows of a stage that is a band, of the section's number, the stage's, and the band's letters and level.
fn band_name(section: u8, stage: u8, one: u8, two: u8, digit: u8) -> [u8; 25] {
    let mut name = *b"printed/4.2.4.3.1.1_Y_LL3";
    name[16] = section;
    name[18] = stage;
    name[22] = one;
    name[23] = two;
    name[24] = digit;
    name
}

// The same of a stage that is half of a row pass.
fn half_name(section: u8, stage: u8, one: u8, digit: u8) -> [u8; 24] {
    let mut name = *b"printed/4.2.4.3.1.5_Y_L2";
    name[16] = section;
    name[18] = stage;
    name[22] = one;
    name[23] = digit;
    name
}

// How many numbers a band of a level has, by the side of the band.
fn count(n: usize) -> usize
    ensures { result ≤ 1024 }
{
    match n {
        8 => 64,
        16 => 256,
        _ => 1024,
    }
}

// The bands of a level; LL is shown where nothing was made before.
fn bands(rt: &HostRuntime, section: u8, digit: u8, n: usize, work: &[i32]) {
    let k = count(n);
    let a = 4096 - 4 * k;
    if section == b'1' {
        crate::stages::shown(
            rt,
            &band_name(section, b'1', b'L', b'L', digit),
            work,
            a + 3 * k,
            k,
        );
    }
    crate::stages::shown(rt, &band_name(section, b'2', b'H', b'L', digit), work, a, k);
    crate::stages::shown(
        rt,
        &band_name(section, b'3', b'L', b'H', digit),
        work,
        a + k,
        k,
    );
    crate::stages::shown(
        rt,
        &band_name(section, b'4', b'H', b'H', digit),
        work,
        a + 2 * k,
        k,
    );
}

// A level, stage by stage: its bands, the two halves of its row pass, and the band that it makes, which has the next level's digit.
pub fn shown_level(
    rt: &HostRuntime,
    section: u8,
    digit: u8,
    next: u8,
    n: usize,
    work: &mut [i32],
    tmp: &mut [i32],
)
    ensures { work.new ≡ levelled n (length tmp.old) work.old }
{
    let k = count(n);
    bands(rt, section, digit, n, work);
    rows(work, tmp, n);
    crate::stages::shown(rt, &half_name(section, b'5', b'L', next), tmp, 0, 2 * k);
    crate::stages::shown(rt, &half_name(section, b'6', b'H', next), tmp, 2 * k, 2 * k);
    level(work, tmp, n);
    crate::stages::shown(
        rt,
        &band_name(section, b'7', b'L', b'L', next),
        work,
        4096 - 4 * k,
        4 * k,
    );
}
