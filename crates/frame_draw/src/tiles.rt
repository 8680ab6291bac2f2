// The draw pass over tiles that the check pass has found sound, document 01's "the last such tile in message order decides" and
// "Drawing a tile before the next is checked" (a slip): each tile's three components to samples, and its place. No picture is carried here.
ghost use Rattle.std.specs.Prelude.{◌≡◌, ◌<◌, length};
ghost use Rattle.frame_layout.specs.Reader.{quant_count, set_at, data_of, tile_at};
ghost use Rattle.frame_blocks.specs.Blocks.{RegionGood};
ghost use Rattle.frame_blocks.specs.Tiles.{TileSound};
ghost use Rattle.frame_blocks.specs.Judged.{in_set, SetSound};
ghost use Rattle.frame_draw.specs.Show.{Lists, Sampled, Ready, plane_of};

// The numbers of a draw pass: the session's mode and size, and where in the message the tileset stands.
#[derive(Clone, Copy)]
pub struct Pass {
    pub mode: u8,
    pub w: usize,
    pub h: usize,
    pub sp: usize,
}

// The samples of component k (0, 1, 2: Y, Cb, Cr) of the sound tile at a place of the tileset's data.
fn part_samples(p: Pass, m: &[u8], at: usize, k: usize, list: &mut [i32], tmp: &mut [i32])
    requires { (length list.old ≡ 4096) × (length tmp.old ≡ 4096) × SetSound m.now p.sp × TileSound (in_set p.mode m.now p.sp) (quant_count m.now p.sp) (data_of m.now p.sp) at × (k < 3) }
    ensures { list.new ≡ plane_of p.mode (set_at m.now p.sp) (tile_at (data_of m.now p.sp) at) k }
{
    let sp = p.sp;
    let d = frame_blocks::block::tile_data(m, sp);
    let j = frame_blocks::tile::quant_index(d, at, k);
    let set = bands::quant_at(m, sp + (22 + 5 * j));
    let code = frame_blocks::tile::code_part(d, at, k);
    tile_back::samples(p.mode, set, code, list, tmp);
}

// All three.
fn tile_samples(
    p: Pass,
    m: &[u8],
    at: usize,
    ys: &mut [i32],
    cbs: &mut [i32],
    crs: &mut [i32],
    tmp: &mut [i32],
)
    requires { Lists ys.old cbs.old crs.old tmp.old × SetSound m.now p.sp × TileSound (in_set p.mode m.now p.sp) (quant_count m.now p.sp) (data_of m.now p.sp) at }
    ensures { Sampled p.mode (set_at m.now p.sp) (tile_at (data_of m.now p.sp) at) ys.new cbs.new crs.new }
{
    part_samples(p, m, at, 0, ys, tmp);
    part_samples(p, m, at, 1, cbs, tmp);
    part_samples(p, m, at, 2, crs, tmp);
}

// All that is done for a tile before the picture is touched: its samples; and where one rectangle holds all of it that lies in the channel
// (asked once), none are kept, else all are held against its columns and kept in the fourth list. Says where the tile lies.
pub fn ready_tile(
    p: Pass,
    m: &[u8],
    at: usize,
    ys: &mut [i32],
    cbs: &mut [i32],
    crs: &mut [i32],
    tmp: &mut [i32],
) -> crate::row::Spot
    requires { Lists ys.old cbs.old crs.old tmp.old × RegionGood m.now 14 × SetSound m.now p.sp × TileSound (in_set p.mode m.now p.sp) (quant_count m.now p.sp) (data_of m.now p.sp) at }
    ensures { Ready p.mode m.now p.sp p.w p.h (tile_at (data_of m.now p.sp) at) ys.new cbs.new crs.new tmp.new result }
{
    let w = p.w;
    let h = p.h;
    tile_samples(p, m, at, ys, cbs, crs, tmp);
    let rects = frame_blocks::block::rects(m, 14);
    let d = frame_blocks::block::tile_data(m, p.sp);
    let tx = wire::le16_at(d, at + 9);
    let ty = wire::le16_at(d, at + 11);
    let n = crate::row::asked_of(rects, wire::le16_at(m, 23), w, h, tx, ty);
    crate::clip::clip_rects(rects, n, w, tx, tmp);
    crate::row::Spot { w, h, tx, ty, n }
}
