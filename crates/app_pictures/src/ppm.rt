// A binary PPM picture (P6, 255 the largest value): its head, whether it is one that `send` takes, and decimal numbers in text. specs/Ppm has the rule.
ghost use Rattle.std.specs.Prelude.{◌≡◌, ◌-◌, ◌<◌};
ghost use Rattle.app_pictures.specs.Ppm.{is_digit, is_blank, more_of, figure_at, after_of, skip_at, field_of, field_at, is_p6, blank_at, closed_of, head_of, size_fault, bytes_fault, sized_of, picture_of};

// A number in text and the place behind it.
#[derive(Clone, Copy)]
pub struct Figure {
    pub value: usize,
    pub at: usize,
}

// What the head of a picture says: its size, and the place of the first pixel.
#[derive(Clone, Copy)]
pub struct Head {
    pub width: usize,
    pub height: usize,
    pub at: usize,
}

// Why a picture is not taken: it is not P6, its head cannot be read, its largest value is not 255, its size is not allowed, it has more than 2^20 pixels,
// too few bytes or too many.
#[derive(Clone, Copy, Debug, PartialEq, Eq)]
pub enum Unfit {
    Kind,
    Unread,
    Largest,
    Size,
    Pixels,
    Few,
    Many,
}

// What the bytes that are skipped are: blanks, or a comment, which ends with its line.
#[derive(Clone, Copy)]
enum Skipped {
    Blank,
    Comment,
}

fn is_digit(b: u8) -> bool
    ensures { result ≡ is_digit b }
{
    if b < 48 {
        return false;
    }
    b <= 57
}

fn is_blank(b: u8) -> bool
    ensures { result ≡ is_blank b }
{
    if b < 9 {
        return false;
    }
    if b <= 13 {
        return true;
    }
    b == 32
}

fn digit(b: u8) -> usize
    ensures { (result ≡ b - 48) × (result < 256) }
{
    if b < 48 {
        return 0;
    }
    (b - 48) as usize
}

// A number with a digit more; what is 2^32 or above stays 2^32.
fn more(v: usize, d: usize) -> usize
    requires { d < 256 }
    ensures { result ≡ more_of v d }
{
    if 4294967295 < v {
        return 4294967296;
    }
    if 4294967295 < 10 * v + d {
        return 4294967296;
    }
    10 * v + d
}

// The digits from a place on, as a number.
pub fn number(m: &[u8], from: usize) -> Figure
    ensures { result ≡ figure_at m.now from }
{
    let mut at = from;
    let mut value: usize = 0;
    // No range: the place that is reached is wanted behind the loop.
    while at < m.len() {
        let b = m[at];
        if !is_digit(b) {
            return Figure {
                value: value,
                at: at,
            };
        }
        value = more(value, digit(b));
        at += 1;
    }
    Figure {
        value: value,
        at: at,
    }
}

// Where a byte leaves the skipping; nowhere if it is neither blank nor comment.
fn after(state: Skipped, b: u8) -> Option<Skipped>
    ensures { result ≡ after_of state b }
{
    match state {
        Skipped::Comment if b != 10 => Some(Skipped::Comment),
        Skipped::Comment => Some(Skipped::Blank),
        Skipped::Blank if is_blank(b) => Some(Skipped::Blank),
        Skipped::Blank if b == 35 => Some(Skipped::Comment),
        Skipped::Blank => None,
    }
}

// The first place from one on that is neither blank nor comment.
fn skip(m: &[u8], from: usize) -> usize
    ensures { result ≡ skip_at m.now from }
{
    let mut at = from;
    let mut state = Skipped::Blank;
    // No range, for the same reason.
    while at < m.len() {
        match after(state, m[at]) {
            Some(next) => state = next,
            None => return at,
        }
        at += 1;
    }
    at
}

// The number between two places, if there is a blank before it and a digit in it.
fn field_of(from: usize, start: usize, f: Figure) -> Result<Figure, Unfit>
    ensures { result ≡ field_of from start f }
{
    if start <= from {
        return Err(Unfit::Unread);
    }
    if f.at <= start {
        return Err(Unfit::Unread);
    }
    Ok(f)
}

// The next number of a head, behind blanks or comments.
fn field(m: &[u8], from: usize) -> Result<Figure, Unfit>
    ensures { result ≡ field_at m.now from }
{
    let start = skip(m, from);
    field_of(from, start, number(m, start))
}

fn is_p6(m: &[u8]) -> bool
    ensures { result ≡ is_p6 m.now }
{
    if m.len() < 2 {
        return false;
    }
    if m[0] != 0x50 {
        return false;
    }
    m[1] == 0x36
}

fn blank_at(m: &[u8], at: usize) -> bool
    ensures { result ≡ blank_at m.now at }
{
    if at < m.len() {
        return is_blank(m[at]);
    }
    false
}

// What follows the largest value: one blank.
fn closed(m: &[u8], width: usize, height: usize, most: Figure) -> Result<Head, Unfit>
    ensures { result ≡ closed_of m.now width height most }
{
    if !blank_at(m, most.at) {
        return Err(Unfit::Unread);
    }
    if most.value != 255 {
        return Err(Unfit::Largest);
    }
    Ok(Head {
        width: width,
        height: height,
        at: most.at + 1,
    })
}

// The head of a picture.
fn read_head(m: &[u8]) -> Result<Head, Unfit>
    ensures { result ≡ head_of m.now }
{
    if !is_p6(m) {
        return Err(Unfit::Kind);
    }
    let w = field(m, 2)?;
    let h = field(m, w.at)?;
    let most = field(m, h.at)?;
    closed(m, w.value, h.value, most)
}

// 01's sizes, and what the program has room for.
fn size_fault(width: usize, height: usize) -> Result<(), Unfit>
    ensures { result ≡ size_fault width height }
{
    if width < 1 {
        return Err(Unfit::Size);
    }
    if 4096 < width {
        return Err(Unfit::Size);
    }
    if height < 1 {
        return Err(Unfit::Size);
    }
    if 2048 < height {
        return Err(Unfit::Size);
    }
    if 1048576 < width * height {
        return Err(Unfit::Pixels);
    }
    Ok(())
}

// Three bytes a pixel, from a place to the end.
fn bytes_fault(need: usize, at: usize, n: usize) -> Result<(), Unfit>
    ensures { result ≡ bytes_fault need at n }
{
    if n < at {
        return Err(Unfit::Few);
    }
    if n - at < need {
        return Err(Unfit::Few);
    }
    if need < n - at {
        return Err(Unfit::Many);
    }
    Ok(())
}

// A picture whose head is that, in n bytes.
fn sized(h: Head, n: usize) -> Result<Head, Unfit>
    ensures { result ≡ sized_of h n }
{
    size_fault(h.width, h.height)?;
    bytes_fault(3 * (h.width * h.height), h.at, n)?;
    Ok(h)
}

// A whole picture.
pub fn read_picture(m: &[u8]) -> Result<Head, Unfit>
    ensures { result ≡ picture_of m.now }
{
    sized(read_head(m)?, m.len())
}
