// The records of a recording that write into lent output: the component writer ('W'), the header writer ('X'), the writer of settings ('w'), those of
// capabilities and acknowledgements ('b', 'e', 'j'), the frame writer ('Z'), the one over two quantiser sets ('y') and that of a short frame ('q').
// Each answers how many bytes it wrote, and the largest number where the recording asks for more than there is.
use crate::taking::Record;
use app_answers::writers::Asked;
use bands::Quant;
use caps::{Ack, Caps, Entry};
use frame_write::size::Job;
use quants::Quants;
use settings::Settings;

#[derive(Clone, Copy, Debug, PartialEq, Eq)]
pub enum Writer {
    Component,
    Headers,
    Settings,
    Caps,
    AckCap,
    Ack,
    Frame,
    FrameSets,
    Short,
}

// Four bytes as a signed number.
fn signed(v: usize) -> i32 {
    match u32::try_from(v) {
        Ok(bits) => bits.cast_signed(),
        Err(_) => 0,
    }
}

// A run of a list, from a place on, and where it ends; the largest number where it does not fit.
fn put_run(value: usize, times: usize, list: &mut [i32], at: usize) -> usize {
    if list.len() < at || list.len() - at < times {
        return usize::MAX;
    }
    list[at..at + times].fill(signed(value));
    at + times
}

// The numbers of a list, run by run; how many there are.
fn put_runs(runs: &[u8], list: &mut [i32]) -> usize {
    let mut at: usize = 0;
    for i in 0..runs.len() / 8 {
        let value = crate::taking::figure(runs, 2 * i);
        let times = crate::taking::figure(runs, 2 * i + 1);
        at = put_run(value, times, list, at);
    }
    at
}

// The component writer on the first n numbers of a list.
fn component_of(mode: usize, list: &[i32], n: usize, out: &mut [u8]) -> usize {
    if list.len() < n {
        return usize::MAX;
    }
    app_answers::writers::writer_call(app_recording::read::byte_of(mode), &list[0..n], out)
}

// 'W'
fn component(mode: usize, runs: &[u8], out: &mut [u8]) -> usize {
    let mut list = [0i32; 8192];
    let n = put_runs(runs, &mut list);
    component_of(mode, &list, n, out)
}

// 'X'
fn headers(m: &[u8], out: &mut [u8]) -> usize {
    let w = crate::taking::figure(m, 0);
    let h = crate::taking::figure(m, 1);
    let mode = app_recording::read::byte_of(crate::taking::figure(m, 2));
    app_answers::writers::headers_call(w, h, mode, out)
}

// Ten quantisers at a place.
fn quant_at(m: &[u8], at: usize) -> Quant {
    let q = app_text::loading::first(app_text::loading::rest(m, at), 10);
    let mut v = [0; 10];
    if q.len() == 10 {
        v.copy_from_slice(q);
    }
    Quant { v }
}

// Luma's and chroma's, or one set that is both.
fn quants_at(m: &[u8], at: usize, two: bool) -> Quants {
    let luma = quant_at(m, at);
    if !two {
        return Quants {
            luma: luma,
            chroma: luma,
        };
    }
    let chroma = quant_at(m, at.wrapping_add(10));
    Quants {
        luma: luma,
        chroma: chroma,
    }
}

// 'w'
fn cabinet(m: &[u8], out: &mut [u8]) -> usize {
    let s = Settings {
        quants: quants_at(m, 8, true),
        mode: app_recording::read::byte_of(crate::taking::figure(m, 0)),
    };
    app_answers::cabinet::write_settings_call(s, out)
}

// An entry of a container, by its number.
fn entry_at(entries: &[u8], flags: usize, mode: usize) -> Entry {
    Entry {
        flags: app_recording::read::byte_of(crate::taking::figure(entries, flags)),
        mode: app_recording::read::byte_of(crate::taking::figure(entries, mode)),
    }
}

// A container: the first two entries are those that it can have.
fn caps_of(m: &[u8], entries: &[u8]) -> Caps {
    Caps {
        flags: app_recording::read::index_of(crate::taking::figure(m, 0)),
        n: app_recording::read::byte_of(entries.len() / 8),
        first: entry_at(entries, 0, 1),
        second: entry_at(entries, 2, 3),
    }
}

fn byte(m: &[u8], i: usize) -> u8 {
    app_recording::read::byte_of(crate::taking::figure(m, i))
}

fn word(m: &[u8], i: usize) -> u16 {
    app_recording::read::word_of(crate::taking::figure(m, i))
}

fn index(m: &[u8], i: usize) -> u32 {
    app_recording::read::index_of(crate::taking::figure(m, i))
}

// A frame acknowledge message.
fn ack_of(m: &[u8]) -> Ack {
    Ack {
        version: word(m, 0),
        source: word(m, 1),
        share: index(m, 2),
        pad: byte(m, 3),
        stream: byte(m, 4),
        uncompressed: word(m, 5),
        compression: byte(m, 6),
        compressed: word(m, 7),
        frame: index(m, 8),
    }
}

// What a frame writer is asked for.
fn asked(m: &[u8], sets: bool) -> Asked {
    Asked {
        width: crate::taking::figure(m, 0),
        height: crate::taking::figure(m, 1),
        mode: byte(m, 2),
        index: index(m, 3),
        q: quants_at(m, 32, sets),
        sets: sets,
    }
}

// The length of the second work list: the third's, where that is not 4,096.
fn second_length(m: &[u8]) -> usize {
    if crate::taking::figure(m, 6) == 4096 {
        return crate::taking::figure(m, 5);
    }
    crate::taking::figure(m, 6)
}

// 'Z', 'y'
fn frame(r: Record, m: &[u8], out: &mut [u8], sets: bool) -> usize {
    let pixels = crate::taking::one(m, r);
    let first = crate::taking::figure(m, 4);
    app_answers::writers::frame_writer_call(asked(m, sets), pixels, first, second_length(m), out)
}

// The short frame's writer on the first n numbers of a list.
fn short_of(r: Record, m: &[u8], list: &[u32], n: usize, out: &mut [u8]) -> usize {
    if list.len() < n {
        return usize::MAX;
    }
    let job = Job {
        width: crate::taking::figure(m, 0),
        height: crate::taking::figure(m, 1),
        mode: byte(m, 2),
        index: crate::taking::figure(m, 3),
        quants: quants_at(m, 32, true),
    };
    let old = crate::taking::one(m, r);
    let new = crate::taking::two(m, r);
    let first = crate::taking::figure(m, 4);
    app_answers::writers::short_call(job, old, new, &list[0..n], first, second_length(m), out)
}

// 'q'
fn short(r: Record, m: &[u8], out: &mut [u8]) -> usize {
    let mut list = [0u32; 4096];
    let n = crate::told::put_picks(crate::taking::three(m, r), &mut list);
    short_of(r, m, &list, n, out)
}

// The writer on the output that is lent. Capabilities and acknowledgements are not read back.
fn wrote_in(kind: Writer, r: Record, m: &[u8], out: &mut [u8]) -> usize {
    match kind {
        Writer::Component => {
            return component(crate::taking::figure(m, 0), crate::taking::one(m, r), out);
        }
        Writer::Headers => return headers(m, out),
        Writer::Settings => return cabinet(m, out),
        Writer::Frame => return frame(r, m, out, false),
        Writer::FrameSets => return frame(r, m, out, true),
        Writer::Short => return short(r, m, out),
        Writer::Caps => {
            let c = caps_of(m, crate::taking::one(m, r));
            app_answers::capabilities::write_caps_call(c, out);
        }
        Writer::AckCap => app_answers::capabilities::write_ack_cap_call(index(m, 0), out),
        Writer::Ack => app_answers::capabilities::write_ack_call(ack_of(m), out),
    }
    0
}

// Which number of a record is the output's length.
fn room_of(kind: Writer) -> usize {
    match kind {
        Writer::Headers => 3,
        Writer::Ack => 9,
        Writer::Frame | Writer::FrameSets | Writer::Short => 7,
        Writer::Component | Writer::Settings | Writer::Caps | Writer::AckCap => 1,
    }
}

// Where such a record stands in memory, and the output.
pub fn wrote(kind: Writer, r: Record, m: &[u8], out: &mut [u8]) -> usize {
    let room = crate::taking::figure(m, room_of(kind));
    if out.len() < room {
        return usize::MAX;
    }
    wrote_in(kind, r, m, &mut out[0..room])
}
