// Saying what we can do: document 02, request Twelve (001, sections 2.2.1.1 to 2.2.1.1.1.1.1, 2.2.1.3 and 2.2.3.1). The client capability container
// with its capset and entries, the frame acknowledge capability and the frame acknowledge message, read and written.
// specs/Walk says how any layout is read, specs/Caps and specs/Ack have the tables.
#![tactic(auto)]

pub mod read;
pub mod walk;
pub mod write;

// One entry of the container's capset: its flags, which nobody judges, and entropyBits, 1 (RLGR1) or 4 (RLGR3). One that is not there is 0 0.
#[derive(Clone, Copy, Default)]
pub struct Entry {
    pub flags: u8,
    pub mode: u8,
}

// The entries of a capset: how many there are, and the two places.
#[derive(Clone, Copy)]
pub struct Entries {
    pub n: u8,
    pub first: Entry,
    pub second: Entry,
}

// The fields of a container: captureFlags, how many entries there are, and the entries.
#[derive(Clone, Copy, Default)]
pub struct Caps {
    pub flags: u32,
    pub n: u8,
    pub first: Entry,
    pub second: Entry,
}

// The fields of a frame acknowledge message: the version, which is the upper twelve bits of pduType, and then in wire order.
#[derive(Clone, Copy, Default)]
pub struct Ack {
    pub version: u16,
    pub source: u16,
    pub share: u32,
    pub pad: u8,
    pub stream: u8,
    pub uncompressed: u16,
    pub compression: u8,
    pub compressed: u16,
    pub frame: u32,
}
