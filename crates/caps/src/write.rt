// The three writers: what each refuses, then the bytes of specs/Caps, specs/AckCap and specs/Ack. The output is untouched on a refusal, and so are the bytes
// past the length.
ghost use Rattle.std.specs.Prelude.{◌≡◌, [], ◌∷◌, ◌++◌, ◌+◌, ◌*◌, ◌≤◌, ◌<◌, length};
ghost use Rattle.wire.specs.Le.{bytes16, bytes32, patch, written};
ghost use Rattle.wire.specs.Refusal.{number_of};
ghost use Rattle.wire.specs.Wrote.{Wrote};
ghost use Rattle.caps.specs.Caps.{entry_of, entries_of, entries_in, caps_of, modes_good, caps_fault};
ghost use Rattle.caps.specs.AckCap.{ack_cap_of, ack_cap_fault};
ghost use Rattle.caps.specs.Ack.{ack_of, ack_fault};

use crate::{Ack, Caps, Entries, Entry};
use wire::Refusal;

// The container's three fields, and those of TS_RFX_CAPS.
fn put_front(out: &mut [u8], flags: u32, n: usize)
    requires { (20 ≤ length out.old) × (n ≤ 2) }
    ensures { out.new ≡ patch out.old 0 (bytes32 (33 + 8 * n) ++ (bytes32 flags ++ (bytes32 (21 + 8 * n) ++ (bytes16 0xCBC0 ++ (bytes32 8 ++ bytes16 1))))) }
{
    wire::put32_at(out, 0, 33 + 8 * n);
    wire::put32_at(out, 4, flags as usize);
    wire::put32_at(out, 8, 21 + 8 * n);
    wire::put16_at(out, 12, 0xCBC0);
    wire::put32_at(out, 14, 8);
    wire::put16_at(out, 18, 1);
}

// The capset up to its entries.
fn put_capset(out: &mut [u8], n: usize)
    requires { (33 ≤ length out.old) × (n ≤ 2) }
    ensures { out.new ≡ patch out.old 20 (bytes16 0xCBC1 ++ (bytes32 (13 + 8 * n) ++ (1 ∷ (bytes16 0xCFC0 ++ (bytes16 n ++ bytes16 8))))) }
{
    wire::put16_at(out, 20, 0xCBC1);
    wire::put32_at(out, 22, 13 + 8 * n);
    wire::put8_at(out, 26, 1);
    wire::put16_at(out, 27, 0xCFC0);
    wire::put_two16(out, 29, n, 8);
}

fn put_entry(out: &mut [u8], at: usize, e: Entry)
    requires { at + 8 ≤ length out.old }
    ensures { out.new ≡ patch out.old at (entry_of e) }
{
    wire::put_two16(out, at, 0x0100, 0x0040);
    wire::put_two8(out, at + 4, e.flags, 1);
    wire::put_two8(out, at + 6, 1, e.mode);
}

fn put_entries(out: &mut [u8], s: Entries)
    requires { (s.n ≤ 2) × (33 + 8 * s.n ≤ length out.old) }
    ensures { out.new ≡ patch out.old 33 (entries_of s) }
{
    if s.n == 0 {
        return;
    }
    put_entry(out, 33, s.first);
    if s.n == 1 {
        return;
    }
    put_entry(out, 41, s.second);
}

fn entries_in(c: Caps) -> Entries
    ensures { result ≡ entries_in c }
{
    Entries {
        n: c.n,
        first: c.first,
        second: c.second,
    }
}

fn put_caps(out: &mut [u8], c: Caps)
    requires { (c.n ≤ 2) × (33 + 8 * c.n ≤ length out.old) }
    ensures { out.new ≡ written (caps_of c) out.old }
{
    put_front(out, c.flags, c.n as usize);
    put_capset(out, c.n as usize);
    put_entries(out, entries_in(c));
}

// Are the modes of the entries that are there RLGR1 or RLGR3?
fn modes_good(s: Entries) -> bool
    ensures { result ≡ modes_good s }
{
    if s.n == 0 {
        return true;
    }
    if !wire::is_mode(s.first.mode as usize) {
        return false;
    }
    if s.n == 1 {
        return true;
    }
    wire::is_mode(s.second.mode as usize)
}

fn caps_fault(c: Caps, room: usize) -> Result<(), Refusal>
    ensures { number_of result ≡ caps_fault c room }
{
    if c.n > 2 {
        return Err(Refusal::TooBig);
    }
    if !modes_good(entries_in(c)) {
        return Err(Refusal::Field);
    }
    if room < 33 + 8 * c.n as usize {
        return Err(Refusal::Room);
    }
    Ok(())
}

// Writes the client capability container. An entry past n is ignored.
pub fn write_caps(c: Caps, out: &mut [u8]) -> Result<usize, Refusal>
    ensures { Wrote (caps_fault c (length out.old)) (caps_of c) out.old out.new result }
{
    caps_fault(c, out.len())?;
    put_caps(out, c);
    Ok(33 + 8 * c.n as usize)
}

fn put_ack_cap(out: &mut [u8], count: u32)
    requires { 8 ≤ length out.old }
    ensures { out.new ≡ written (ack_cap_of count) out.old }
{
    wire::put_two16(out, 0, 0x001E, 8);
    wire::put32_at(out, 4, count as usize);
}

// Writes the frame acknowledge capability.
pub fn write_ack_cap(count: u32, out: &mut [u8]) -> Result<usize, Refusal>
    ensures { Wrote (ack_cap_fault (length out.old)) (ack_cap_of count) out.old out.new result }
{
    if out.len() < 8 {
        return Err(Refusal::Room);
    }
    put_ack_cap(out, count);
    Ok(8)
}

// The message up to streamId.
fn put_ack_front(out: &mut [u8], a: Ack)
    requires { 22 ≤ length out.old }
    ensures { out.new ≡ patch out.old 0 (bytes16 22 ++ (bytes16 (7 + 16 * a.version) ++ (bytes16 a.source ++ (bytes32 a.share ++ (a.pad ∷ a.stream ∷ []))))) }
{
    wire::put_two16(out, 0, 22, 7 + 16 * a.version as usize);
    wire::put16_at(out, 4, a.source as usize);
    wire::put32_at(out, 6, a.share as usize);
    wire::put_two8(out, 10, a.pad, a.stream);
}

// And from uncompressedLength on.
fn put_ack_back(out: &mut [u8], a: Ack)
    requires { 22 ≤ length out.old }
    ensures { out.new ≡ patch out.old 12 (bytes16 a.uncompressed ++ (0x38 ∷ a.compression ∷ (bytes16 a.compressed ++ bytes32 a.frame))) }
{
    wire::put16_at(out, 12, a.uncompressed as usize);
    wire::put_two8(out, 14, 0x38, a.compression);
    wire::put16_at(out, 16, a.compressed as usize);
    wire::put32_at(out, 18, a.frame as usize);
}

fn put_ack(out: &mut [u8], a: Ack)
    requires { 22 ≤ length out.old }
    ensures { out.new ≡ written (ack_of a) out.old }
{
    put_ack_front(out, a);
    put_ack_back(out, a);
}

fn ack_fault(version: u16, room: usize) -> Result<(), Refusal>
    ensures { number_of result ≡ ack_fault version room }
{
    if version > 4095 {
        return Err(Refusal::Field);
    }
    if room < 22 {
        return Err(Refusal::Room);
    }
    Ok(())
}

// Writes the frame acknowledge message from its shareDataHeader on.
pub fn write_ack(a: Ack, out: &mut [u8]) -> Result<usize, Refusal>
    ensures { Wrote (ack_fault a.version (length out.old)) (ack_of a) out.old out.new result }
{
    ack_fault(a.version, out.len())?;
    put_ack(out, a);
    Ok(22)
}
