// The header writer of document 01: "Header writer: size or mode 5, then 13 (47 bytes)", with the four blocks of "Blocks";
// specs/laws/ReadBack says that the header calls take what it writes, from any record.
#![tactic(auto)]

ghost use Rattle.std.specs.Prelude.{◌≡◌, ◌+◌, ◌≤◌, ◌<◌, length, ◌++◌};
ghost use Rattle.wire.specs.Le.{bytes16, bytes32, patch, written};
ghost use Rattle.wire.specs.Refusal.{number_of};
ghost use Rattle.headers.specs.Headers.{sync_of, versions_of, channels_of, properties_of, context_of, headers_of, headers_fault, HeadersWritten};

use wire::Refusal;

// A block opened, and its length, which is known, filled in.
fn put_head(out: &mut [u8], at: usize, kind: usize, size: usize)
    requires { at + 6 ≤ length out.old }
    ensures { out.new ≡ patch out.old at (bytes16 kind ++ bytes32 size) }
{
    wire::open_block(out, at, kind);
    wire::put32_at(out, at + 2, size);
}

fn put_sync(out: &mut [u8])
    requires { 47 ≤ length out.old }
    ensures { out.new ≡ patch out.old 0 sync_of }
{
    put_head(out, 0, 0xCCC0, 12);
    wire::put32_at(out, 6, 0xCACCACCA);
    wire::put16_at(out, 10, 0x0100);
}

fn put_versions(out: &mut [u8])
    requires { 47 ≤ length out.old }
    ensures { out.new ≡ patch out.old 12 versions_of }
{
    put_head(out, 12, 0xCCC1, 10);
    wire::put_two8(out, 18, 1, 1);
    wire::put16_at(out, 20, 0x0100);
}

fn put_channels(out: &mut [u8], w: usize, h: usize)
    requires { 47 ≤ length out.old }
    ensures { out.new ≡ patch out.old 22 (channels_of w h) }
{
    put_head(out, 22, 0xCCC2, 12);
    wire::put_two8(out, 28, 1, 0);
    wire::put_two16(out, 30, w, h);
}

fn properties(et: usize) -> usize
    requires { et < 256 }
    ensures { result ≡ properties_of et }
{
    8232 + 512 * et
}

fn put_context(out: &mut [u8], et: usize)
    requires { (47 ≤ length out.old) × (et < 256) }
    ensures { out.new ≡ patch out.old 34 (context_of et) }
{
    put_head(out, 34, 0xCCC3, 13);
    wire::put_two8(out, 40, 1, 0xFF);
    wire::put8_at(out, 42, 0);
    wire::put_two16(out, 43, 64, properties(et));
}

fn put_headers(out: &mut [u8], w: usize, h: usize, et: usize)
    requires { (47 ≤ length out.old) × (et < 256) }
    ensures { out.new ≡ written (headers_of w h et) out.old }
{
    put_sync(out);
    put_versions(out);
    put_channels(out, w, h);
    put_context(out, et);
}

fn headers_fault(w: usize, h: usize, et: usize, room: usize) -> Result<(), Refusal>
    ensures { number_of result ≡ headers_fault w h et room }
{
    if !session::is_size(w, h) || !wire::is_mode(et) {
        return Err(Refusal::Field);
    }
    if room < 47 {
        return Err(Refusal::Room);
    }
    Ok(())
}

// The four header blocks, in table order.
pub fn write_headers(
    width: usize,
    height: usize,
    mode: u8,
    out: &mut [u8],
) -> Result<usize, Refusal>
    ensures { HeadersWritten width height mode out.old out.new result }
{
    headers_fault(width, height, mode as usize, out.len())?;
    put_headers(out, width, height, mode as usize);
    Ok(47)
}
