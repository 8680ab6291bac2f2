// The three readers: each is one walk along the wire (specs/Walk) by its table (specs/Caps, specs/AckCap, specs/Ack). They lend no memory and keep no
// state; a refusal gives no fields.
ghost use Rattle.std.specs.Prelude.{◌≡◌};
ghost use Rattle.caps.specs.Step.{Reads};
ghost use Rattle.caps.specs.Caps.{entry, entries, capset, block, container, read_caps, caps_fields};
ghost use Rattle.caps.specs.AckCap.{ack_cap, read_ack_cap, ack_cap_count};
ghost use Rattle.caps.specs.Ack.{ack, read_ack, ack_fields};

use crate::walk::{Width, finish, fixed, next};
use crate::{Ack, Caps, Entries, Entry};
use wire::Refusal;

// "at most two entries, else 6"
const MOST: usize = 2;

fn read_entry(rest: &mut &[u8]) -> Result<Entry, Refusal>
    ensures { Reads entry rest.old.now rest.new.now result }
{
    fixed(rest, Width::Two, 0x0100, Refusal::Field)?;
    fixed(rest, Width::Two, 0x0040, Refusal::Field)?;
    let flags = next(rest, Width::One)?;
    fixed(rest, Width::One, 1, Refusal::Field)?;
    fixed(rest, Width::One, 1, Refusal::Field)?;
    let mode = next(rest, Width::One)?;
    if !wire::is_mode(mode) {
        return Err(Refusal::Field);
    }
    Ok(Entry {
        flags: flags as u8,
        mode: mode as u8,
    })
}

fn read_entries(rest: &mut &[u8], n: usize) -> Result<Entries, Refusal>
    ensures { Reads (entries n) rest.old.now rest.new.now result }
{
    let absent = Entry { flags: 0, mode: 0 };
    if n == 0 {
        return Ok(Entries {
            n: 0,
            first: absent,
            second: absent,
        });
    }
    let first = read_entry(rest)?;
    if n == 1 {
        return Ok(Entries {
            n: 1,
            first,
            second: absent,
        });
    }
    let second = read_entry(rest)?;
    Ok(Entries {
        n: 2,
        first,
        second,
    })
}

// By capsLength, which speaks of it.
fn read_capset(rest: &mut &[u8], inner: usize) -> Result<Entries, Refusal>
    ensures { Reads (capset inner) rest.old.now rest.new.now result }
{
    fixed(rest, Width::Two, 0xCBC1, Refusal::Field)?;
    let length = next(rest, Width::Four)?;
    if inner != 8 + length {
        return Err(Refusal::Length);
    }
    fixed(rest, Width::One, 1, Refusal::Field)?;
    fixed(rest, Width::Two, 0xCFC0, Refusal::Field)?;
    let count = next(rest, Width::Two)?;
    if count > MOST {
        return Err(Refusal::TooBig);
    }
    fixed(rest, Width::Two, 8, Refusal::Length)?;
    if length != 13 + 8 * count {
        return Err(Refusal::Length);
    }
    read_entries(rest, count)
}

// TS_RFX_CAPS and the capset.
fn read_block(rest: &mut &[u8], inner: usize) -> Result<Entries, Refusal>
    ensures { Reads (block inner) rest.old.now rest.new.now result }
{
    fixed(rest, Width::Two, 0xCBC0, Refusal::Field)?;
    fixed(rest, Width::Four, 8, Refusal::Length)?;
    fixed(rest, Width::Two, 1, Refusal::Field)?;
    read_capset(rest, inner)
}

fn read_container(rest: &mut &[u8]) -> Result<Caps, Refusal>
    ensures { Reads container rest.old.now rest.new.now result }
{
    let length = next(rest, Width::Four)?;
    let flags = next(rest, Width::Four)?;
    let inner = next(rest, Width::Four)?;
    if length != 12 + inner {
        return Err(Refusal::Length);
    }
    let listed = read_block(rest, inner)?;
    Ok(Caps {
        flags: flags as u32,
        n: listed.n,
        first: listed.first,
        second: listed.second,
    })
}

fn read_ack_cap_fields(rest: &mut &[u8]) -> Result<u32, Refusal>
    ensures { Reads ack_cap rest.old.now rest.new.now result }
{
    fixed(rest, Width::Two, 0x001E, Refusal::Field)?;
    fixed(rest, Width::Two, 8, Refusal::Length)?;
    let count = next(rest, Width::Four)?;
    Ok(count as u32)
}

fn read_ack_message(rest: &mut &[u8]) -> Result<Ack, Refusal>
    ensures { Reads ack rest.old.now rest.new.now result }
{
    fixed(rest, Width::Two, 22, Refusal::Length)?;
    let kind = next(rest, Width::Two)?;
    if kind % 16 != 7 {
        return Err(Refusal::Field);
    }
    let source = next(rest, Width::Two)?;
    let share = next(rest, Width::Four)?;
    let pad = next(rest, Width::One)?;
    let stream = next(rest, Width::One)?;
    let uncompressed = next(rest, Width::Two)?;
    fixed(rest, Width::One, 0x38, Refusal::Field)?;
    let compression = next(rest, Width::One)?;
    let compressed = next(rest, Width::Two)?;
    let frame = next(rest, Width::Four)?;
    Ok(Ack {
        version: (kind / 16) as u16,
        source: source as u16,
        share: share as u32,
        pad: pad as u8,
        stream: stream as u8,
        uncompressed: uncompressed as u16,
        compression: compression as u8,
        compressed: compressed as u16,
        frame: frame as u32,
    })
}

// Reads the client capability container, which is the whole message. The three readers are alike; one over a function for the fields would have its clause for
// any layout, and be no shorter.
pub fn read_caps(m: &[u8]) -> Result<Caps, Refusal>
    ensures { result ≡ read_caps m.now }
{
    let mut rest = m;
    let caps = read_container(&mut rest)?;
    finish(rest)?;
    Ok(caps)
}

// Reads the frame acknowledge capability, which is the whole message: its maxUnacknowledgedFrameCount.
pub fn read_ack_cap(m: &[u8]) -> Result<u32, Refusal>
    ensures { result ≡ read_ack_cap m.now }
{
    let mut rest = m;
    let count = read_ack_cap_fields(&mut rest)?;
    finish(rest)?;
    Ok(count)
}

// Reads the frame acknowledge message from its shareDataHeader on, which is the whole message.
pub fn read_ack(m: &[u8]) -> Result<Ack, Refusal>
    ensures { result ≡ read_ack m.now }
{
    let mut rest = m;
    let fields = read_ack_message(&mut rest)?;
    finish(rest)?;
    Ok(fields)
}

// The fields, all 0 where the message is refused.
pub fn caps_fields(r: Result<Caps, Refusal>) -> Caps
    ensures { result ≡ caps_fields r }
{
    r.unwrap_or_default()
}

// The same of a frame acknowledge capability.
pub fn ack_cap_count(r: Result<u32, Refusal>) -> u32
    ensures { result ≡ ack_cap_count r }
{
    r.unwrap_or(0)
}

// The same of a frame acknowledge message.
pub fn ack_fields(r: Result<Ack, Refusal>) -> Ack
    ensures { result ≡ ack_fields r }
{
    r.unwrap_or_default()
}
