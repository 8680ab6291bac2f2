// One tile of a tileset without its codes' contents, document 01's "Order. Frame call" (each tile) and "Blocks" (tile): head, kind,
// least size, presence in the tileset's own data, lengths, indices, place; and the codes of a checked tile as parts of the message. The place is held
// against the record's columns and rows, which document 02's request Six keeps there.
ghost use Rattle.std.specs.Prelude.{◌≡◌, ◌+◌, ◌*◌, ◌≤◌, ◌<◌, length};
ghost use Rattle.wire.specs.Refusal.{number_of};
ghost use Rattle.session.specs.Header.{Right};
ghost use Rattle.frame_layout.specs.Reader.{body_judge, tile_at};
ghost use Rattle.frame_blocks.specs.Tiles.{place_judge, tile_fields, tile_front, part_start, code_part, index_of, TileWhole};

use session::Session;
use wire::Refusal;

// The place: a tile starts in the channel exactly if its column is below the record's columns, and its row below the rows.
fn place_judge(s: Session, x: usize, y: usize) -> Result<(), Refusal>
    requires { Right s }
    ensures { number_of result ≡ place_judge s.width s.height x y }
{
    if s.columns as usize <= x {
        return Err(Refusal::Place);
    }
    if s.rows as usize <= y {
        return Err(Refusal::Place);
    }
    Ok(())
}

// the lengths against the size, the indices, the place
fn body_judge(
    s: Session,
    q: usize,
    size: usize,
    ly: usize,
    lcb: usize,
    lcr: usize,
    qy: usize,
    qcb: usize,
    qcr: usize,
    x: usize,
    y: usize,
) -> Result<(), Refusal>
    requires { Right s × (ly < 65536) × (lcb < 65536) × (lcr < 65536) }
    ensures { number_of result ≡ body_judge s.width s.height q size ly lcb lcr qy qcb qcr x y }
{
    if size != 19 + ly + lcb + lcr {
        return Err(Refusal::Length);
    }
    if q <= qy {
        return Err(Refusal::Quant);
    }
    if q <= qcb {
        return Err(Refusal::Quant);
    }
    if q <= qcr {
        return Err(Refusal::Quant);
    }
    place_judge(s, x, y)
}

fn tile_fields(s: Session, q: usize, d: &[u8], at: usize) -> Result<(), Refusal>
    requires { Right s × (at + 19 ≤ length d.now) }
    ensures { number_of result ≡ tile_fields s.width s.height q d.now at }
{
    let size = wire::le32_at(d, at + 2);
    let qy = wire::byte_at(d, at + 6);
    let qcb = wire::byte_at(d, at + 7);
    let qcr = wire::byte_at(d, at + 8);
    let x = wire::le16_at(d, at + 9);
    let y = wire::le16_at(d, at + 11);
    let ly = wire::le16_at(d, at + 13);
    let lcb = wire::le16_at(d, at + 15);
    let lcr = wire::le16_at(d, at + 17);
    body_judge(s, q, size, ly, lcb, lcr, qy, qcb, qcr, x, y)
}

// The first fault of the tile at a place, before its codes; q is the number of quantiser sets.
pub fn tile_front(s: Session, q: usize, d: &[u8], at: usize) -> Result<(), Refusal>
    requires { Right s × (at ≤ length d.now) }
    ensures { number_of result ≡ tile_front s.width s.height q d.now at }
{
    crate::block::least_head(0xCAC3, 19, d, at)?;
    tile_fields(s, q, d, at)
}

// where code k of a tile starts
fn part_start(d: &[u8], at: usize, k: usize) -> usize
    requires { at + 19 ≤ length d.now }
    ensures { result ≡ part_start d.now at k }
{
    let y = wire::le16_at(d, at + 13);
    let cb = wire::le16_at(d, at + 15);
    if k == 0 {
        return at + 19;
    }
    if k == 1 {
        return at + 19 + y;
    }
    at + 19 + y + cb
}

// The Y, Cb or Cr code (k = 0, 1, 2) of a checked tile, as that part of the message itself.
pub fn code_part(d: &[u8], at: usize, k: usize) -> &[u8]
    requires { TileWhole d.now at × (k < 3) }
    ensures { result.now ≡ code_part (tile_at d.now at) k }
{
    let n = wire::le16_at(d, at + (13 + 2 * k));
    let a = part_start(d, at, k);
    &d[a..a + n]
}

// The number of the quantiser set of Y, Cb or Cr (k = 0, 1, 2) of a checked tile.
pub fn quant_index(d: &[u8], at: usize, k: usize) -> usize
    requires { TileWhole d.now at × (k < 3) }
    ensures { result ≡ index_of (tile_at d.now at) k }
{
    wire::byte_at(d, at + (6 + k))
}
