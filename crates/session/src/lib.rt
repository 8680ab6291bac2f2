// The session record and the header call of document 01: "What the panel takes and gives" (the record), "Order. Header call", and
// "Blocks" (sync, versions, channels, context); 001, 2.2.2.2; and what document 02's requests Six and Thirteen keep in the record. It is
// taken and given by value.
#![tactic(auto)]

ghost use Rattle.std.specs.Prelude.{◌≡◌, ◌+◌, ◌≤◌, ◌<◌, length};
ghost use Rattle.wire.specs.Refusal.{number_of};
ghost use Rattle.session.specs.Header.{tiles_over, record_of, of_glass, of_numbers, stepped, right, size_good, counted, made, ready, due, size_of, sync_judge, versions_judge, channels_judge, properties_good, context_judge, et_of, sync_fault, versions_fault, channels_fault, context_fault, field_fault, head_judge, header_fault, kept_glass, record_after, header_record, header_reading};
ghost use Rattle.session.specs.laws.Header.{Good};

use wire::Refusal;

// How many headers are in, mode (et), width, height; tile columns, tile rows and words of the picture, which follow from the size; the glass, 0 where a
// word of the picture has 16 bits, 1 where it has 32. All 0 when fresh, but for the glass. Laid out as C does, for the edge: 16 bytes with no hole
// inside; the three behind the glass are never read.
#[repr(C)]
#[derive(Clone, Copy)]
pub struct Session {
    pub headers: u8,
    pub mode: u8,
    pub width: u16,
    pub height: u16,
    pub columns: u8,
    pub rows: u8,
    pub words: u32,
    pub glass: u8,
}

// The record after the call; a refused header leaves the one from before.
pub fn header_record(answer: Result<Session, Refusal>, before: Session) -> Session
    ensures { result ≡ header_record answer before }
{
    answer.unwrap_or(before)
}

// Is the size one that 01 allows?
pub fn is_size(w: usize, h: usize) -> bool
    ensures { result ≡ size_good w h }
{
    if w < 1 {
        return false;
    }
    if 4096 < w {
        return false;
    }
    if h < 1 {
        return false;
    }
    h <= 2048
}

// How many tiles of 64 stand over so many pixels.
pub fn tiles_over(n: u16) -> usize
    ensures { (result ≡ tiles_over n) × (result ≤ 1024) }
{
    (n as usize + 63) / 64
}

// The record of a glass and 01's four numbers, whatever they are; the others are worked out from them.
fn of_glass(glass: u8, headers: u8, width: u16, height: u16, mode: u8) -> Session
    ensures { result ≡ of_glass glass headers width height mode }
{
    Session {
        headers: headers,
        mode: mode,
        width: width,
        height: height,
        columns: (tiles_over(width) % 256) as u8,
        rows: (tiles_over(height) % 256) as u8,
        words: width as u32 * height as u32,
        glass: glass,
    }
}

// The record of 01's four numbers, on the base's glass.
pub fn of_numbers(headers: u8, width: u16, height: u16, mode: u8) -> Session
    ensures { result ≡ of_numbers headers width height mode }
{
    of_glass(0, headers, width, height, mode)
}

// A session opened for a glass: 0 where a word of the picture has 16 bits, 1 where it has 32. Any other number is no glass: it gives a record that no calls
// could have made, which is 12 wherever a record is judged, and which a good sync makes, without a word, a session for 16 bits. So give 0 or 1.
pub fn open(glass: u8) -> Session
    ensures { result ≡ record_of glass 0 0 0 0 }
{
    of_glass(glass, 0, 0, 0, 0)
}

// Another count of headers and another mode; the rest is kept.
fn step(s: Session, headers: u8, mode: u8) -> Session
    ensures { result ≡ stepped s headers mode }
{
    Session {
        headers: headers,
        mode: mode,
        width: s.width,
        height: s.height,
        columns: s.columns,
        rows: s.rows,
        words: s.words,
        glass: s.glass,
    }
}

// Are columns, rows and words those of width and height?
fn is_right(s: Session) -> bool
    ensures { result ≡ right s }
{
    if s.columns as usize != tiles_over(s.width) {
        return false;
    }
    if s.rows as usize != tiles_over(s.height) {
        return false;
    }
    s.words == s.width as u32 * s.height as u32
}

// Are size and mode those that so many headers have given?
fn is_counted(headers: usize, w: usize, h: usize, mode: usize) -> bool
    ensures { result ≡ counted headers w h mode }
{
    if headers < 3 {
        if w != 0 {
            return false;
        }
        if h != 0 {
            return false;
        }
        return mode == 0;
    }
    if is_size(w, h) {
        if headers == 3 {
            return mode == 0;
        }
        if headers != 4 {
            return false;
        }
        return wire::is_mode(mode);
    }
    false
}

// Could calls have made this record?
fn is_made(s: Session) -> bool
    ensures { result ≡ made s }
{
    if 1 < s.glass {
        return false;
    }
    if is_right(s) {
        return is_counted(
            s.headers as usize,
            s.width as usize,
            s.height as usize,
            s.mode as usize,
        );
    }
    false
}

// Is this a record that calls could have made, with all four headers in?
pub fn is_ready(s: Session) -> bool
    ensures { result ≡ ready s }
{
    if s.headers != 4 {
        return false;
    }
    is_made(s)
}

fn is_due(s: Session, t: usize) -> bool
    ensures { result ≡ due s t }
{
    if t == 0xCCC0 {
        return true;
    }
    if is_made(s) {
        return t == 0xCCC0 + s.headers as usize;
    }
    false
}

fn size_of(t: usize) -> usize
    ensures { (result ≡ size_of t) × (10 ≤ result) }
{
    if t == 0xCCC1 {
        return 10;
    }
    if t == 0xCCC3 {
        return 13;
    }
    12
}

fn sync_judge(magic: usize, version: usize) -> Result<(), Refusal>
    ensures { number_of result ≡ sync_judge magic version }
{
    if magic != 0xCACCACCA {
        return Err(Refusal::Field);
    }
    if version != 0x0100 {
        return Err(Refusal::Field);
    }
    Ok(())
}

fn versions_judge(count: u8, codec: u8, version: usize) -> Result<(), Refusal>
    ensures { number_of result ≡ versions_judge count codec version }
{
    if count != 1 {
        return Err(Refusal::Field);
    }
    if codec != 1 {
        return Err(Refusal::Field);
    }
    if version != 0x0100 {
        return Err(Refusal::Field);
    }
    Ok(())
}

fn channels_judge(count: u8, id: u8, w: usize, h: usize) -> Result<(), Refusal>
    ensures { number_of result ≡ channels_judge count id w h }
{
    if count != 1 {
        return Err(Refusal::Field);
    }
    if id != 0 {
        return Err(Refusal::Field);
    }
    if is_size(w, h) {
        return Ok(());
    }
    Err(Refusal::Field)
}

fn et_of(p: usize) -> usize
    ensures { (result ≡ et_of p) × (result < 16) }
{
    p / 512 % 16
}

fn properties_good(p: usize) -> bool
    ensures { result ≡ properties_good p }
{
    if p / 8 % 4 != 1 {
        return false;
    }
    if p / 32 % 16 != 1 {
        return false;
    }
    if wire::is_mode(et_of(p)) {
        return p / 8192 % 4 == 1;
    }
    false
}

fn context_judge(codec: u8, channel: u8, context: u8, side: usize, p: usize) -> Result<(), Refusal>
    ensures { number_of result ≡ context_judge codec channel context side p }
{
    if codec != 1 {
        return Err(Refusal::Field);
    }
    if channel != 0xFF {
        return Err(Refusal::Field);
    }
    if context != 0 {
        return Err(Refusal::Field);
    }
    if side != 64 {
        return Err(Refusal::Field);
    }
    if properties_good(p) {
        return Ok(());
    }
    Err(Refusal::Field)
}

fn sync_fault(m: &[u8]) -> Result<(), Refusal>
    requires { 12 ≤ length m.now }
    ensures { number_of result ≡ sync_fault m.now }
{
    sync_judge(wire::le32_at(m, 6), wire::le16_at(m, 10))
}

fn versions_fault(m: &[u8]) -> Result<(), Refusal>
    requires { 10 ≤ length m.now }
    ensures { number_of result ≡ versions_fault m.now }
{
    versions_judge(m[6], m[7], wire::le16_at(m, 8))
}

fn channels_fault(m: &[u8]) -> Result<(), Refusal>
    requires { 12 ≤ length m.now }
    ensures { number_of result ≡ channels_fault m.now }
{
    channels_judge(m[6], m[7], wire::le16_at(m, 8), wire::le16_at(m, 10))
}

fn context_fault(m: &[u8]) -> Result<(), Refusal>
    requires { 13 ≤ length m.now }
    ensures { number_of result ≡ context_fault m.now }
{
    context_judge(m[6], m[7], m[8], wire::le16_at(m, 9), wire::le16_at(m, 11))
}

// The fields of a whole block of a known type.
fn field_fault(m: &[u8], t: usize) -> Result<(), Refusal>
    requires { (0xCCC0 ≤ t) × (t ≤ 0xCCC3) × (size_of t ≤ length m.now) }
    ensures { number_of result ≡ field_fault m.now t }
{
    if t == 0xCCC0 {
        return sync_fault(m);
    }
    if t == 0xCCC1 {
        return versions_fault(m);
    }
    if t == 0xCCC2 {
        return channels_fault(m);
    }
    context_fault(m)
}

// Type (3), due (12), length (4), whole block present (1).
fn head_judge(s: Session, t: usize, size: usize, len: usize) -> Result<(), Refusal>
    ensures { number_of result ≡ head_judge s t size len }
{
    if t < 0xCCC0 {
        return Err(Refusal::Kind);
    }
    if 0xCCC3 < t {
        return Err(Refusal::Kind);
    }
    if is_due(s, t) {
        if size != size_of(t) {
            return Err(Refusal::Length);
        }
        if len < size {
            return Err(Refusal::Cut);
        }
        return Ok(());
    }
    Err(Refusal::Order)
}

// The first fault of the message, in 01's order.
fn header_fault(s: Session, m: &[u8]) -> Result<(), Refusal>
    ensures { number_of result ≡ header_fault s m.now }
{
    if m.len() < 6 {
        return Err(Refusal::Cut);
    }
    let t = wire::le16_at(m, 0);
    let size = wire::le32_at(m, 2);
    head_judge(s, t, size, m.len())?;
    field_fault(m, t)?;
    if m.len() != size {
        return Err(Refusal::Length);
    }
    Ok(())
}

// The glass after a sync.
fn kept_glass(glass: u8) -> u8
    ensures { result ≡ kept_glass glass }
{
    if glass <= 1 {
        return glass;
    }
    0
}

// The record after a header in which nothing is wrong.
fn record_after(s: Session, m: &[u8]) -> Session
    requires { Good s m.now }
    ensures { result ≡ record_after s m.now }
{
    let t = wire::le16_at(m, 0);
    if t == 0xCCC0 {
        return Session {
            headers: 1,
            mode: 0,
            width: 0,
            height: 0,
            columns: 0,
            rows: 0,
            words: 0,
            glass: kept_glass(s.glass),
        };
    }
    if t == 0xCCC1 {
        return step(s, 2, s.mode);
    }
    if t == 0xCCC2 {
        let width = wire::le16_at(m, 8) as u16;
        let height = wire::le16_at(m, 10) as u16;
        return of_glass(s.glass, 3, width, height, 0);
    }
    step(s, 4, et_of(wire::le16_at(m, 11)) as u8)
}

// The header call: the record after a header without a fault, or the first fault's number.
pub fn take_header(s: Session, m: &[u8]) -> Result<Session, Refusal>
    ensures { result ≡ header_reading s m.now }
{
    header_fault(s, m)?;
    Ok(record_after(s, m))
}
