// The six calls of capabilities and acknowledgements for C (02, request Twelve). A list is a pointer and its length; the answer is the number of the first
// fault, 0 for done. What is read is stored on every answer, 0 where the message is refused; a writer's length is stored on every answer, refused 0. Each is
// one call of `caps` and promises what that one does (specs/Capabilities). Nothing here has a `requires`.
ghost use Rattle.panel.specs.Capabilities.{ReadCapsCall, WriteCapsCall, ReadAckCapCall, WriteAckCapCall, ReadAckCall, WriteAckCall};

use caps::{Ack, Caps, Entry};

// Reads the client capability container, which is the whole message. `entries` are two of flags and entropyBits each.
#[unsafe(no_mangle)]
pub extern "C" fn xurbalenz_read_caps(
    message: &[u8],
    flags: &mut u32,
    n: &mut u8,
    entries: &mut [u8; 4],
) -> u8
    ensures { ReadCapsCall message.now flags.new n.new entries.new result }
{
    let answer = caps::read::read_caps(message);
    let c = caps::read::caps_fields(answer);
    let first = c.first;
    let second = c.second;
    *flags = c.flags;
    *n = c.n;
    *entries = [first.flags, first.mode, second.flags, second.mode];
    wire::number_of(answer)
}

// Writes the client capability container. An entry past n is ignored.
#[unsafe(no_mangle)]
pub extern "C" fn xurbalenz_write_caps(
    flags: u32,
    n: u8,
    entries: &[u8; 4],
    out: &mut [u8],
    size: &mut usize,
) -> u8
    ensures { WriteCapsCall flags n entries.now out.old out.new size.new result }
{
    let c = Caps {
        flags: flags,
        n: n,
        first: Entry {
            flags: entries[0],
            mode: entries[1],
        },
        second: Entry {
            flags: entries[2],
            mode: entries[3],
        },
    };
    let w = caps::write::write_caps(c, out);
    *size = wire::count_of(w);
    wire::number_of(w)
}

// Reads the frame acknowledge capability, which is the whole message.
#[unsafe(no_mangle)]
pub extern "C" fn xurbalenz_read_ack_cap(message: &[u8], count: &mut u32) -> u8
    ensures { ReadAckCapCall message.now count.new result }
{
    let answer = caps::read::read_ack_cap(message);
    *count = caps::read::ack_cap_count(answer);
    wire::number_of(answer)
}

// Writes the frame acknowledge capability.
#[unsafe(no_mangle)]
pub extern "C" fn xurbalenz_write_ack_cap(count: u32, out: &mut [u8], size: &mut usize) -> u8
    ensures { WriteAckCapCall count out.old out.new size.new result }
{
    let w = caps::write::write_ack_cap(count, out);
    *size = wire::count_of(w);
    wire::number_of(w)
}

// Reads the frame acknowledge message from its shareDataHeader on. `fields` are version, pduSource, shareId, pad1, streamId, uncompressedLength,
// compressedType, compressedLength and frameID.
#[unsafe(no_mangle)]
pub extern "C" fn xurbalenz_read_ack(message: &[u8], fields: &mut [u32; 9]) -> u8
    ensures { ReadAckCall message.now fields.new result }
{
    let answer = caps::read::read_ack(message);
    let a = caps::read::ack_fields(answer);
    *fields = [
        a.version as u32,
        a.source as u32,
        a.share,
        a.pad as u32,
        a.stream as u32,
        a.uncompressed as u32,
        a.compression as u32,
        a.compressed as u32,
        a.frame,
    ];
    wire::number_of(answer)
}

// Writes the frame acknowledge message from its shareDataHeader on.
#[unsafe(no_mangle)]
pub extern "C" fn xurbalenz_write_ack(
    version: u16,
    source: u16,
    share: u32,
    pad: u8,
    stream: u8,
    uncompressed: u16,
    compression: u8,
    compressed: u16,
    frame: u32,
    out: &mut [u8],
    size: &mut usize,
) -> u8
    ensures { WriteAckCall version source share pad stream uncompressed compression compressed frame out.old out.new size.new result }
{
    let a = Ack {
        version: version,
        source: source,
        share: share,
        pad: pad,
        stream: stream,
        uncompressed: uncompressed,
        compression: compression,
        compressed: compressed,
        frame: frame,
    };
    let w = caps::write::write_ack(a, out);
    *size = wire::count_of(w);
    wire::number_of(w)
}
