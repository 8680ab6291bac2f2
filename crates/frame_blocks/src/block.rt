// The blocks of a frame up to its tiles, document 01's "Order. Frame call" and "Blocks": begin, region, tileset with its quantisers,
// end, each with the first fault by 01's number. Judges take plain numbers; faults read them from the message.
ghost use Rattle.std.specs.Prelude.{◌≡◌, ◌+◌, ◌*◌, ◌≤◌, ◌<◌, eqb, leb, length};
ghost use Rattle.whole.specs.Row.{◌⇒◌∣◌};
ghost use Rattle.wire.specs.Refusal.{number_of};
ghost use Rattle.frame_layout.specs.Reader.{block_judge, fixed_head, least_head, codec_judge, codec_fault, begin_judge, begin_fault, region_judge, last_judge, region_fault, props_good, set_judge, halves_fault, quants_fault, end_fault, data_of};
ghost use Rattle.frame_blocks.specs.Blocks.{head_by, set_fields, set_front, rects_of, RegionGood, SetGood};

use wire::Refusal;

// kind, then the size against the layout, then the room
fn head_judge(kind: usize, is: usize, fits: bool, size: usize, room: usize) -> Result<(), Refusal>
    ensures { number_of result ≡ block_judge kind is fits size room }
{
    if is != kind {
        return Err(Refusal::Kind);
    }
    if !fits {
        return Err(Refusal::Length);
    }
    if room < size {
        return Err(Refusal::Cut);
    }
    Ok(())
}

// Is the size that a head says the block's fixed size, or at least its least size?
fn size_fits(fixed: bool, size: usize, said: usize) -> bool
    ensures { result ≡ (fixed ⇒ eqb said size ∣ leb size said) }
{
    if fixed {
        return said == size;
    }
    size <= said
}

// The head of a block of a fixed or of a least size.
fn block_head(fixed: bool, kind: usize, size: usize, m: &[u8], at: usize) -> Result<(), Refusal>
    requires { at ≤ length m.now }
    ensures { number_of result ≡ head_by fixed kind size m.now at }
{
    let room = m.len() - at;
    if room < 6 {
        return Err(Refusal::Cut);
    }
    let is = wire::le16_at(m, at);
    let said = wire::le32_at(m, at + 2);
    head_judge(kind, is, size_fits(fixed, size, said), said, room)
}

// One body with two names, since the definitions have two.
pub fn fixed_head(kind: usize, size: usize, m: &[u8], at: usize) -> Result<(), Refusal>
    requires { at ≤ length m.now }
    ensures { number_of result ≡ fixed_head kind size m.now at }
{
    block_head(true, kind, size, m, at)
}

pub fn least_head(kind: usize, least: usize, m: &[u8], at: usize) -> Result<(), Refusal>
    requires { at ≤ length m.now }
    ensures { number_of result ≡ least_head kind least m.now at }
{
    block_head(false, kind, least, m, at)
}

fn codec_judge(codec: usize, channel: usize) -> Result<(), Refusal>
    ensures { number_of result ≡ codec_judge codec channel }
{
    if codec != 1 {
        return Err(Refusal::Field);
    }
    if channel != 0 {
        return Err(Refusal::Field);
    }
    Ok(())
}

fn codec_fault(m: &[u8], at: usize) -> Result<(), Refusal>
    requires { at + 8 ≤ length m.now }
    ensures { number_of result ≡ codec_fault m.now at }
{
    let codec = wire::byte_at(m, at + 6);
    let channel = wire::byte_at(m, at + 7);
    codec_judge(codec, channel)
}

fn begin_judge(regions: usize) -> Result<(), Refusal>
    ensures { number_of result ≡ begin_judge regions }
{
    if regions != 1 {
        return Err(Refusal::Field);
    }
    Ok(())
}

// The frame's first block.
pub fn begin_fault(m: &[u8]) -> Result<(), Refusal>
    ensures { number_of result ≡ begin_fault m.now 0 }
{
    fixed_head(0xCCC4, 14, m, 0)?;
    codec_fault(m, 0)?;
    let regions = wire::le16_at(m, 12);
    begin_judge(regions)
}

fn region_judge(flags: usize, n: usize, size: usize) -> Result<(), Refusal>
    requires { n < 65536 }
    ensures { number_of result ≡ region_judge flags n size }
{
    if flags % 2 != 1 {
        return Err(Refusal::Field);
    }
    if 256 < n {
        return Err(Refusal::TooBig);
    }
    if size != 15 + 8 * n {
        return Err(Refusal::Length);
    }
    Ok(())
}

fn last_judge(kind: usize, sets: usize) -> Result<(), Refusal>
    ensures { number_of result ≡ last_judge kind sets }
{
    if kind != 0xCAC1 {
        return Err(Refusal::Field);
    }
    if sets != 1 {
        return Err(Refusal::Field);
    }
    Ok(())
}

// The region at a place; its type and tilesets fields come last of it.
pub fn region_fault(m: &[u8], at: usize) -> Result<(), Refusal>
    requires { at ≤ length m.now }
    ensures { number_of result ≡ region_fault m.now at }
{
    least_head(0xCCC6, 15, m, at)?;
    codec_fault(m, at)?;
    let flags = wire::byte_at(m, at + 8);
    let n = wire::le16_at(m, at + 9);
    let size = wire::le32_at(m, at + 2);
    region_judge(flags, n, size)?;
    let kind = wire::le16_at(m, at + (11 + 8 * n));
    let sets = wire::le16_at(m, at + (13 + 8 * n));
    last_judge(kind, sets)
}

// lt, cct, xft, et and qt of a tileset's properties
fn is_props(mode: u8, p: usize) -> bool
    ensures { result ≡ props_good mode p }
{
    let et = mode as usize;
    if p % 2 != 1 {
        return false;
    }
    if p / 16 % 4 != 1 {
        return false;
    }
    if p / 64 % 16 != 1 {
        return false;
    }
    if p / 1024 % 16 != et {
        return false;
    }
    p / 16384 == 1
}

fn set_judge(
    mode: u8,
    size: usize,
    subtype: usize,
    idx: usize,
    props: usize,
    q: usize,
    side: usize,
    n: usize,
    bytes: usize,
) -> Result<(), Refusal>
    requires { (q < 256) × (bytes < 4294967296) }
    ensures { number_of result ≡ set_judge mode size subtype idx props q side n bytes }
{
    if subtype != 0xCAC2 {
        return Err(Refusal::Field);
    }
    if idx != 0 {
        return Err(Refusal::Field);
    }
    if !is_props(mode, props) {
        return Err(Refusal::Field);
    }
    if side != 64 {
        return Err(Refusal::Field);
    }
    if 2048 < n {
        return Err(Refusal::TooBig);
    }
    if size != 22 + 5 * q + bytes {
        return Err(Refusal::Length);
    }
    Ok(())
}

fn set_fields(mode: u8, m: &[u8], at: usize) -> Result<(), Refusal>
    requires { at + 22 ≤ length m.now }
    ensures { number_of result ≡ set_fields mode m.now at }
{
    let size = wire::le32_at(m, at + 2);
    let subtype = wire::le16_at(m, at + 8);
    let idx = wire::le16_at(m, at + 10);
    let props = wire::le16_at(m, at + 12);
    let q = wire::byte_at(m, at + 14);
    let side = wire::byte_at(m, at + 15);
    let n = wire::le16_at(m, at + 16);
    let bytes = wire::le32_at(m, at + 18);
    set_judge(mode, size, subtype, idx, props, q, side, n, bytes)
}

// one byte of two quantisers, 6 to 15 each
fn halves_fault(b: usize) -> Result<(), Refusal>
    ensures { number_of result ≡ halves_fault b }
{
    if b % 16 < 6 {
        return Err(Refusal::Quant);
    }
    if b / 16 < 6 {
        return Err(Refusal::Quant);
    }
    if 15 < b / 16 {
        return Err(Refusal::Quant);
    }
    Ok(())
}

// k bytes of quantisers from a place on
fn quants_fault(m: &[u8], k: usize, at: usize) -> Result<(), Refusal>
    requires { at + k ≤ length m.now }
    ensures { number_of result ≡ quants_fault m.now k at }
{
    for b in &m[at..at + k] {
        halves_fault(*b as usize)?;
    }
    Ok(())
}

// The tileset at a place, up to its tiles.
pub fn set_front(mode: u8, m: &[u8], at: usize) -> Result<(), Refusal>
    requires { at ≤ length m.now }
    ensures { number_of result ≡ set_front mode m.now at }
{
    least_head(0xCCC7, 22, m, at)?;
    codec_fault(m, at)?;
    set_fields(mode, m, at)?;
    let q = wire::byte_at(m, at + 14);
    quants_fault(m, 5 * q, at + 22)
}

// The frame's last block, and nothing after it.
pub fn end_fault(m: &[u8], at: usize) -> Result<(), Refusal>
    requires { at ≤ length m.now }
    ensures { number_of result ≡ end_fault m.now at }
{
    fixed_head(0xCCC5, 8, m, at)?;
    codec_fault(m, at)?;
    if m.len() != at + 8 {
        return Err(Refusal::Length);
    }
    Ok(())
}

// The rectangles of a checked region, as that part of the message.
pub fn rects(m: &[u8], at: usize) -> &[u8]
    requires { RegionGood m.now at }
    ensures { result.now ≡ rects_of m.now at }
{
    let n = wire::le16_at(m, at + 9);
    let a = at + 11;
    &m[a..a + 8 * n]
}

// The tiles of a checked tileset, as that part of the message.
pub fn tile_data(m: &[u8], at: usize) -> &[u8]
    requires { SetGood m.now at }
    ensures { result.now ≡ data_of m.now at }
{
    let q = wire::byte_at(m, at + 14);
    let size = wire::le32_at(m, at + 18);
    let a = at + (22 + 5 * q);
    &m[a..a + size]
}
