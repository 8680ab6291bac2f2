// The check pass over a tileset's tiles, document 01's "Order. Frame call" (tileset contents): each tile, then its codes Y, Cb, Cr,
// then the next; "data left after the last tile is 4". One work list serves all codes: nothing is said of what it holds after.
ghost use Rattle.std.specs.Prelude.{◌≡◌, ◌+◌, ◌*◌, ◌≤◌, ◌<◌, length};
ghost use Rattle.wire.specs.Refusal.{number_of};
ghost use Rattle.session.specs.Header.{Right};
ghost use Rattle.frame_layout.specs.Reader.{tile_at, codes_fault, tile_fault, tiles_fault, quant_count, tile_count, data_of};
ghost use Rattle.frame_blocks.specs.Tiles.{index_of, code_part, TileGood};
ghost use Rattle.frame_blocks.specs.Judged.{in_set, SetSound};

use session::Session;
use wire::Refusal;

// Component k (0, 1, 2: Y, Cb, Cr) of a tile that has no other fault.
fn part_fault(
    mode: u8,
    m: &[u8],
    sp: usize,
    d: &[u8],
    at: usize,
    k: usize,
    work: &mut [i32],
) -> Result<(), Refusal>
    requires { (length work.old ≡ 4096) × SetSound m.now sp × TileGood (quant_count m.now sp) d.now at × (k < 3) }
    ensures { number_of result ≡ in_set mode m.now sp (index_of (tile_at d.now at) k) (code_part (tile_at d.now at) k) }
{
    let j = frame_blocks::tile::quant_index(d, at, k);
    let set = bands::quant_at(m, sp + (22 + 5 * j));
    let code = frame_blocks::tile::code_part(d, at, k);
    tile_back::component_fault(mode, set, code, work)
}

// Y, then Cb, then Cr.
fn codes_fault(
    mode: u8,
    m: &[u8],
    sp: usize,
    d: &[u8],
    at: usize,
    work: &mut [i32],
) -> Result<(), Refusal>
    requires { (length work.old ≡ 4096) × SetSound m.now sp × TileGood (quant_count m.now sp) d.now at }
    ensures { number_of result ≡ codes_fault (in_set mode m.now sp) (tile_at d.now at) }
{
    part_fault(mode, m, sp, d, at, 0, work)?;
    part_fault(mode, m, sp, d, at, 1, work)?;
    part_fault(mode, m, sp, d, at, 2, work)
}

// One tile with its codes; q is the number of quantiser sets.
fn tile_fault(
    s: Session,
    q: usize,
    m: &[u8],
    sp: usize,
    d: &[u8],
    at: usize,
    work: &mut [i32],
) -> Result<(), Refusal>
    requires { Right s × (length work.old ≡ 4096) × SetSound m.now sp × (q ≡ quant_count m.now sp) × (at ≤ length d.now) }
    ensures { number_of result ≡ tile_fault (in_set s.mode m.now sp) s.width s.height q d.now at }
{
    frame_blocks::tile::tile_front(s, q, d, at)?;
    codes_fault(s.mode, m, sp, d, at, work)
}

// n tiles, one after the other in the tileset's own data.
fn tiles_fault(
    s: Session,
    q: usize,
    n: usize,
    m: &[u8],
    sp: usize,
    d: &[u8],
    work: &mut [i32],
) -> Result<(), Refusal>
    requires { Right s × (length work.old ≡ 4096) × SetSound m.now sp × (q ≡ quant_count m.now sp) }
    ensures { number_of result ≡ tiles_fault (in_set s.mode m.now sp) s.width s.height q d.now n 0 }
{
    let mut at = 0;
    for i in 0..n {
        tile_fault(s, q, m, sp, d, at, work)?;
        at += wire::le32_at(d, at + 2);
    }
    if at != d.len() {
        return Err(Refusal::Length);
    }
    Ok(())
}

// The check pass: the first fault of the tiles of the tileset at a place, whose front was checked.
pub fn check(s: Session, m: &[u8], sp: usize, work: &mut [i32]) -> Result<(), Refusal>
    requires { Right s × (length work.old ≡ 4096) × SetSound m.now sp }
    ensures { number_of result ≡ tiles_fault (in_set s.mode m.now sp) s.width s.height (quant_count m.now sp) (data_of m.now sp) (tile_count m.now sp) 0 }
{
    let q = wire::byte_at(m, sp + 14);
    let n = wire::le16_at(m, sp + 16);
    let d = frame_blocks::block::tile_data(m, sp);
    tiles_fault(s, q, n, m, sp, d, work)
}
