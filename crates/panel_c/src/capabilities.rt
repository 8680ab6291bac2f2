// The six calls of capabilities and acknowledgements for C (02, request Twelve) under their C names: each is one call of the panel's own of that name (panel's
// capabilities.rt) and promises what that one does. Nothing here has a `requires`.
ghost use Rattle.panel.specs.Capabilities.{ReadCapsCall, WriteCapsCall, ReadAckCapCall, WriteAckCapCall, ReadAckCall, WriteAckCall};

// Reads the client capability container, which is the whole message. `entries` are two of flags and entropyBits each.
#[unsafe(no_mangle)]
pub extern "C" fn xurbalenz_read_caps(
    message: &[u8],
    flags: &mut u32,
    n: &mut u8,
    entries: &mut [u8; 4],
) -> u8
    ensures { ReadCapsCall message.now flags.new n.new entries.new result }
{
    panel::capabilities::xurbalenz_read_caps(message, flags, n, entries)
}

// Writes the client capability container. An entry past n is ignored.
#[unsafe(no_mangle)]
pub extern "C" fn xurbalenz_write_caps(
    flags: u32,
    n: u8,
    entries: &[u8; 4],
    out: &mut [u8],
    size: &mut usize,
) -> u8
    ensures { WriteCapsCall flags n entries.now out.old out.new size.new result }
{
    panel::capabilities::xurbalenz_write_caps(flags, n, entries, out, size)
}

// Reads the frame acknowledge capability, which is the whole message.
#[unsafe(no_mangle)]
pub extern "C" fn xurbalenz_read_ack_cap(message: &[u8], count: &mut u32) -> u8
    ensures { ReadAckCapCall message.now count.new result }
{
    panel::capabilities::xurbalenz_read_ack_cap(message, count)
}

// Writes the frame acknowledge capability.
#[unsafe(no_mangle)]
pub extern "C" fn xurbalenz_write_ack_cap(count: u32, out: &mut [u8], size: &mut usize) -> u8
    ensures { WriteAckCapCall count out.old out.new size.new result }
{
    panel::capabilities::xurbalenz_write_ack_cap(count, out, size)
}

// Reads the frame acknowledge message from its shareDataHeader on. `fields` are version, pduSource, shareId, pad1, streamId, uncompressedLength,
// compressedType, compressedLength and frameID.
#[unsafe(no_mangle)]
pub extern "C" fn xurbalenz_read_ack(message: &[u8], fields: &mut [u32; 9]) -> u8
    ensures { ReadAckCall message.now fields.new result }
{
    panel::capabilities::xurbalenz_read_ack(message, fields)
}

// Writes the frame acknowledge message from its shareDataHeader on.
#[unsafe(no_mangle)]
pub extern "C" fn xurbalenz_write_ack(
    version: u16,
    source: u16,
    share: u32,
    pad: u8,
    stream: u8,
    uncompressed: u16,
    compression: u8,
    compressed: u16,
    frame: u32,
    out: &mut [u8],
    size: &mut usize,
) -> u8
    ensures { WriteAckCall version source share pad stream uncompressed compression compressed frame out.old out.new size.new result }
{
    panel::capabilities::xurbalenz_write_ack(
        version,
        source,
        share,
        pad,
        stream,
        uncompressed,
        compression,
        compressed,
        frame,
        out,
        size,
    )
}
