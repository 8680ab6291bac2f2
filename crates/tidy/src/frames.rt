// A frame passed on: as it came where the panel accepts it, with its codes tidied, by the sender that was named, where that makes it acceptable, and as it came otherwise. The tidied frame
// is written straight into the output and then judged as the panel would judge it; lengths are those of what was written.
ghost use Rattle.std.specs.Prelude.{◌≡◌, ◌+◌, ◌*◌, ◌≤◌, length};
ghost use Rattle.wire.specs.Refusal.{number_of};
ghost use Rattle.session.specs.Header.{Right};
ghost use Rattle.wire.specs.Le.{patch};
ghost use Rattle.frame_layout.specs.Bytes.{tile_of};
ghost use Rattle.frame_layout.specs.Reader.{size_at, tile_at, tiles_fault, data_of, tile_count, set_place, quant_count};
ghost use Rattle.frame_blocks.specs.Tiles.{TileWhole};
ghost use Rattle.frame_blocks.specs.Judged.{SetSound};
ghost use Rattle.tidy_code.specs.Sent.{tidy_code};
ghost use Rattle.tidy.specs.Tidy.{tidy_tile, tidy_tiles, frame_tidied, layout_for, tidy_frame, same_bytes, cut_code, cut_tiles, codes_cut, told_of, FrameTidied};
ghost use Rattle.tidy.specs.Put.{Puts, head_with, tile_cut, AllWhole, Laid, closed_as, is_due};

use session::Session;
use wire::Refusal;

// What passing a frame on came to: how many bytes went on, and how many codes were changed.
#[derive(Clone, Copy)]
pub struct Tidied {
    pub size: usize,
    pub cut: usize,
}

// Where writing has come to, and how many codes were changed on the way.
#[derive(Clone, Copy)]
pub struct Put {
    pub to: usize,
    pub cut: usize,
}

fn is_same(a: &[u8], b: &[u8]) -> bool
    ensures { result ≡ same_bytes a.now b.now }
{
    a == b
}

// One code, tidied, at a place.
fn put_code(sender: u8, mode: u8, code: &[u8], list: &mut [i32], out: &mut [u8], to: usize) -> Put
    requires { (length list.old ≡ 4096) × (to + length code.now ≤ length out.old) }
    ensures { Puts (tidy_code sender mode code.now) (cut_code sender mode code.now) to out.old out.new result }
{
    let e = tidy_code::put_tidied(sender, mode, code, list, out, to);
    if is_same(&out[to..e], code) {
        return Put { to: e, cut: 0 };
    }
    Put { to: e, cut: 1 }
}

// The first 19 bytes of a tile: indices and place of the tile that came, and the lengths of its codes as they were written.
fn put_head(d: &[u8], at: usize, out: &mut [u8], to: usize, ly: usize, lcb: usize, lcr: usize)
    requires { (at + 19 ≤ length d.now) × (to + (19 + ly + lcb + lcr) ≤ length out.old) }
    ensures { out.new ≡ patch out.old to (head_with (tile_at d.now at) ly lcb lcr) }
{
    let x = wire::le16_at(d, at + 9);
    let y = wire::le16_at(d, at + 11);
    wire::put16_at(out, to, 0xCAC3);
    wire::put32_at(out, to + 2, 19 + ly + lcb + lcr);
    wire::put_two8(out, to + 6, d[at + 6], d[at + 7]);
    wire::put8_at(out, to + 8, d[at + 8]);
    wire::put_two16(out, to + 9, x, y);
    wire::put_two16(out, to + 13, ly, lcb);
    wire::put16_at(out, to + 17, lcr);
}

// The tile at a place of the tileset's data, with its codes tidied: the codes first, then the head with their lengths.
fn put_tile(
    sender: u8,
    mode: u8,
    d: &[u8],
    at: usize,
    list: &mut [i32],
    out: &mut [u8],
    to: usize,
) -> Put
    requires { (length list.old ≡ 4096) × TileWhole d.now at × (to + size_at d.now at ≤ length out.old) }
    ensures { Puts (tile_of (tidy_tile sender mode (tile_at d.now at))) (tile_cut sender mode (tile_at d.now at)) to out.old out.new result }
{
    let ys = frame_blocks::tile::code_part(d, at, 0);
    let y = put_code(sender, mode, ys, list, out, to + 19);
    let cbs = frame_blocks::tile::code_part(d, at, 1);
    let cb = put_code(sender, mode, cbs, list, out, y.to);
    let crs = frame_blocks::tile::code_part(d, at, 2);
    let cr = put_code(sender, mode, crs, list, out, cb.to);
    put_head(
        d,
        at,
        out,
        to,
        y.to - (to + 19),
        cb.to - y.to,
        cr.to - cb.to,
    );
    Put {
        to: cr.to,
        cut: y.cut + cb.cut + cr.cut,
    }
}

// n tiles of a tileset's data, one after the other, from a place of the output on.
fn put_tiles(
    sender: u8,
    mode: u8,
    n: usize,
    d: &[u8],
    list: &mut [i32],
    out: &mut [u8],
    from: usize,
) -> Put
    requires { (length list.old ≡ 4096) × (n ≤ 2048) × AllWhole n d.now 0 × (from + length d.now ≤ length out.old) }
    ensures { Puts (tidy_tiles sender mode d.now n 0) (cut_tiles sender mode d.now n 0) from out.old out.new result }
{
    let mut at = 0;
    let mut to = from;
    let mut cut = 0;
    for i in 0..n {
        let p = put_tile(sender, mode, d, at, list, out, to);
        to = p.to;
        cut += p.cut;
        at += wire::le32_at(d, at + 2);
    }
    Put { to, cut }
}

// The tileset's end and what follows it, and its two lengths: its tiles stand in the output from a place on to before another.
fn close_frame(m: &[u8], sp: usize, end: usize, out: &mut [u8], from: usize, to: usize)
    requires { (sp + 22 ≤ from) × (from ≤ to) × (end ≤ length m.now) × (to ≤ end) × (length m.now ≤ length out.old) }
    ensures { out.new ≡ closed_as m.now sp end out.old from to }
{
    collect::copy(out, to, m, end, m.len() - end);
    wire::put32_at(out, sp + 2, to - sp);
    wire::put32_at(out, sp + 18, to - from);
}

// The whole frame with its codes tidied.
fn put_frame(sender: u8, mode: u8, m: &[u8], list: &mut [i32], out: &mut [u8]) -> Put
    requires { (length list.old ≡ 4096) × Laid m.now × (length m.now ≤ length out.old) }
    ensures { Puts (frame_tidied sender mode m.now) (cut_tiles sender mode (data_of m.now (set_place m.now)) (tile_count m.now (set_place m.now)) 0) 0 out.old out.new result }
{
    let sp = 14 + wire::le32_at(m, 16);
    let from = sp + (22 + 5 * wire::byte_at(m, sp + 14));
    let n = wire::le16_at(m, sp + 16);
    let d = frame_blocks::block::tile_data(m, sp);
    let end = from + d.len();
    collect::copy(out, 0, m, 0, from);
    let p = put_tiles(sender, mode, n, d, list, out, from);
    close_frame(m, sp, end, out, from, p.to);
    Put {
        to: p.to + (m.len() - end),
        cut: p.cut,
    }
}

// What is wrong with n tiles of a tileset's data where every code is taken for good.
fn tiles_layout(s: Session, q: usize, n: usize, d: &[u8]) -> Result<(), Refusal>
    requires { Right s }
    ensures { number_of result ≡ tiles_fault (λ j code. 0) s.width s.height q d.now n 0 }
{
    let mut at = 0;
    for i in 0..n {
        frame_blocks::tile::tile_front(s, q, d, at)?;
        at += wire::le32_at(d, at + 2);
    }
    if at != d.len() {
        return Err(Refusal::Length);
    }
    Ok(())
}

fn set_layout(s: Session, m: &[u8], sp: usize) -> Result<(), Refusal>
    requires { Right s × SetSound m.now sp }
    ensures { number_of result ≡ tiles_fault (λ j code. 0) s.width s.height (quant_count m.now sp) (data_of m.now sp) (tile_count m.now sp) 0 }
{
    let q = wire::byte_at(m, sp + 14);
    let n = wire::le16_at(m, sp + 16);
    let d = frame_blocks::block::tile_data(m, sp);
    tiles_layout(s, q, n, d)
}

// What is wrong with a frame's layout, indices and places.
fn layout_fault(s: Session, m: &[u8]) -> Result<(), Refusal>
    requires { Right s }
    ensures { number_of result ≡ layout_for s m.now }
{
    frame::call::front_fault(s.mode, m)?;
    let sp = 14 + wire::le32_at(m, 16);
    set_layout(s, m, sp)?;
    let size = wire::le32_at(m, sp + 2);
    frame_blocks::block::end_fault(m, sp + size)
}

// Is a tidied frame to be tried? The record has its headers, the frame is not accepted as it stands, and only its codes are at fault.
fn is_due(s: Session, m: &[u8], list: &mut [i32]) -> bool
    requires { length list.old ≡ 4096 }
    ensures { result ≡ is_due s m.now }
{
    if !session::is_ready(s) {
        return false;
    }
    if frame::call::message_fault(s, m, list).is_ok() {
        return false;
    }
    layout_fault(s, m).is_ok()
}

fn keep(m: &[u8], out: &mut [u8]) -> Put
    requires { length m.now ≤ length out.old }
    ensures { Puts m.now 0 0 out.old out.new result }
{
    collect::copy(out, 0, m, 0, m.len());
    Put {
        to: m.len(),
        cut: 0,
    }
}

// The frame passed on: tidied where the panel's own check of what was written finds no fault, else as it came.
fn pass_frame(sender: u8, s: Session, m: &[u8], list: &mut [i32], out: &mut [u8]) -> Put
    requires { (length list.old ≡ 4096) × (length m.now ≤ length out.old) }
    ensures { Puts (tidy_frame sender s m.now) (codes_cut sender s m.now) 0 out.old out.new result }
{
    if is_due(s, m, list) {
        let p = put_frame(sender, s.mode, m, list, out);
        if frame::call::message_fault(s, &out[..p.to], list).is_ok() {
            return p;
        }
        return keep(m, out);
    }
    keep(m, out)
}

// The call, for any sender, record, message, list and output: 5, 2 and 13, else the frame is passed on and the work list left with zeros.
pub fn tidy_frame(
    sender: u8,
    s: Session,
    message: &[u8],
    list: &mut [i32],
    out: &mut [u8],
) -> Result<Tidied, Refusal>
    ensures { FrameTidied sender s message.now list.old list.new out.old out.new result }
{
    if !tidy_code::is_sender(sender) {
        return Err(Refusal::Field);
    }
    if list.len() != 4096 {
        return Err(Refusal::Buffer);
    }
    if out.len() < message.len() {
        return Err(Refusal::Room);
    }
    let p = pass_frame(sender, s, message, list, out);
    whole::clear(list);
    Ok(Tidied {
        size: p.to,
        cut: p.cut,
    })
}

// Length and count of an answer; a refused one has 0 of both.
pub fn told(answer: Result<Tidied, Refusal>) -> Tidied
    ensures { result ≡ told_of answer }
{
    answer.unwrap_or(Tidied { size: 0, cut: 0 })
}
