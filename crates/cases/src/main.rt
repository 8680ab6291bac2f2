// Runs document 01's "Cases on both sides" through the calls of `panel`, and prints a line for each: those that are not marked (p), and those that are,
// since running costs little; and the cases that document 02 adds. A case that comes out otherwise says so, and the gate compares the lines.
#![tactic(auto)]

use app_text::lines::OUT;
use bands::Quant;
use session::Session;
use wire::Refusal;

fn told(name: &[u8], good: bool) {
    app_text::lines::say(OUT, name);
    if good {
        app_text::lines::say(OUT, b": agrees\n");
        return;
    }
    app_text::lines::say(OUT, b": DIFFERS\n");
}

// ---- the component code

// The first number, then zeros?
fn holds(list: &[i32], first: i32) -> bool {
    match list.split_first() {
        Some((x, rest)) => {
            rest.len() == 4095 && *x == first && app_recording::lent::all_are(rest, 0)
        }
        None => false,
    }
}

// The component reader, on a list of 7s: its number, the bits that it reports, and the list that it leaves.
fn reads(mode: u8, code: &[u8], number: u8, bits: usize, first: i32) -> bool {
    let mut list = [7i32; 4096];
    let r = panel::read_component(mode, code, &mut list);
    code::read::reading_number(r) == number
        && code::read::reading_bits(r) == bits
        && holds(&list, first)
}

// The component writer, on a first number and zeros: just these bytes, and 13 with one byte less.
fn writes(mode: u8, first: i32, code: &[u8]) -> bool {
    let mut list = [0i32; 4096];
    list[0] = first;
    let mut out = [0xA5u8; 8];
    let n = wire::count_of(panel::write_component(mode, &list, &mut out));
    app_text::loading::first(&out, n) == code
}

fn writes_short(mode: u8, first: i32) -> bool {
    let mut list = [0i32; 4096];
    list[0] = first;
    let mut out = [0xA5u8; 3];
    let w = panel::write_component(mode, &list, &mut out);
    w == Err(Refusal::Room) && out == [0xA5, 0xA5, 0xA5]
}

fn zeros(mode: u8) {
    let code: [u8; 4] = [0, 0, 0, 0];
    told(b"all zeros, read", reads(mode, &code[0..3], 0, 21, 0));
    told(b"all zeros, written", writes(mode, 0, &code[0..3]));
    told(b"00 00: cut", reads(mode, &code[0..2], 1, 0, 0));
    told(b"00 00 00 00: tail", reads(mode, &code, 11, 21, 0));
    told(b"empty: cut", reads(mode, &code[0..0], 1, 0, 0));
}

// The bits of 80 00 00 00 and A0 00 00 00 differ by mode: 28 and 27.
fn ones(mode: u8, bits: usize) {
    told(
        b"+1 then zeros, read",
        reads(mode, &[0x80, 0, 0, 0], 0, bits, 1),
    );
    told(b"+1 then zeros, written", writes(mode, 1, &[0x80, 0, 0, 0]));
    told(
        b"-1 then zeros, read",
        reads(mode, &[0xA0, 0, 0, 0], 0, bits, -1),
    );
    told(
        b"-1 then zeros, written",
        writes(mode, -1, &[0xA0, 0, 0, 0]),
    );
    told(
        b"-1 then zeros, three bytes of room: room",
        writes_short(mode, -1),
    );
}

// ---- headers

fn is_record(s: Session, headers: u8, width: u16, height: u16, mode: u8) -> bool {
    s.headers == headers && s.width == width && s.height == height && s.mode == mode
}

// Columns, rows and words of a record (document 02, request Six), and the glass (request Thirteen).
fn is_sized(s: Session, columns: u8, rows: u8, words: u32, glass: u8) -> bool {
    s.columns == columns && s.rows == rows && s.words == words && s.glass == glass
}

// "Headers for 64 x 64, RLGR3", and the four blocks read back.
fn headers() {
    let want: [u8; 47] = [
        0xC0, 0xCC, 0x0C, 0x00, 0x00, 0x00, 0xCA, 0xAC, 0xCC, 0xCA, 0x00, 0x01, 0xC1, 0xCC, 0x0A,
        0x00, 0x00, 0x00, 0x01, 0x01, 0x00, 0x01, 0xC2, 0xCC, 0x0C, 0x00, 0x00, 0x00, 0x01, 0x00,
        0x40, 0x00, 0x40, 0x00, 0xC3, 0xCC, 0x0D, 0x00, 0x00, 0x00, 0x01, 0xFF, 0x00, 0x40, 0x00,
        0x28, 0x28,
    ];
    let mut out = [0xA5u8; 47];
    let w = panel::write_headers(64, 64, 4, &mut out);
    told(b"headers for 64 x 64, RLGR3, done", w == Ok(47));
    told(b"headers for 64 x 64, RLGR3, bytes", out == want);
    let f = app_calls::calls::headers_back(session::of_numbers(0, 0, 0, 0), &out);
    told(b"headers read back", is_record(f.session, 4, 64, 64, 4));
    told(
        b"one column, one row, 4,096 words",
        is_sized(f.session, 1, 1, 4096, 0),
    );
}

// The header writer's number for a width.
fn width_written(width: usize) -> u8 {
    let mut out = [0xA5u8; 47];
    wire::number_of(panel::write_headers(width, 1, 1, &mut out))
}

// The header reader's number for a channels block with this width.
fn width_read(low: u8, high: u8) -> u8 {
    let s = session::of_numbers(2, 0, 0, 0);
    let block: [u8; 12] = [0xC2, 0xCC, 12, 0, 0, 0, 1, 0, low, high, 1, 0];
    wire::number_of(panel::read_header(s, &block))
}

fn widths() {
    told(b"width 4,096 written", width_written(4096) == 0);
    told(b"width 4,097 not written: field", width_written(4097) == 5);
    told(b"width 4,096 taken", width_read(0, 16) == 0);
    told(b"width 4,097 refused: field", width_read(1, 16) == 5);
}

// ---- the record (document 02, requests Six and Thirteen)

// 70 x 40 with three headers in, or four, and columns, rows, words and glass as they are given.
fn record_of(headers: u8, mode: u8, columns: u8, rows: u8, words: u32, glass: u8) -> Session {
    Session {
        headers: headers,
        mode: mode,
        width: 70,
        height: 40,
        columns: columns,
        rows: rows,
        words: words,
        glass: glass,
    }
}

// The header call's number with such a record, on a good context block.
fn context_read(columns: u8, rows: u8, words: u32, glass: u8) -> u8 {
    let s = record_of(3, 0, columns, rows, words, glass);
    let block: [u8; 13] = [0xC3, 0xCC, 13, 0, 0, 0, 1, 0xFF, 0, 0x40, 0, 0x28, 0x28];
    wire::number_of(panel::read_header(s, &block))
}

// The frame call's number with such a record, on a message that is cut, with a picture that is too short: 12 comes before both.
fn frame_read(columns: u8, rows: u8, words: u32, glass: u8) -> u8 {
    let s = record_of(4, 4, columns, rows, words, glass);
    let mut picture = [0x1234u16; 2799];
    shown_by(s, &[], &mut picture)
}

// Each call's number with such a record: 12 and 12 where no calls could have made it.
fn refused(columns: u8, rows: u8, words: u32, glass: u8) -> bool {
    context_read(columns, rows, words, glass) == 12 && frame_read(columns, rows, words, glass) == 12
}

// A good sync starts any record over, on the glass that is kept.
fn sync_read(columns: u8, rows: u8, words: u32, glass: u8, kept: u8) -> bool {
    let before = record_of(4, 4, columns, rows, words, glass);
    let block: [u8; 12] = [0xC0, 0xCC, 12, 0, 0, 0, 0xCA, 0xAC, 0xCC, 0xCA, 0, 1];
    let h = panel::read_header(before, &block);
    let s = session::header_record(h, before);
    wire::number_of(h) == 0 && is_record(s, 1, 0, 0, 0) && is_sized(s, 0, 0, 0, kept)
}

fn records() {
    told(
        b"70 x 40, 2 columns, 1 row, 2,800 words: context taken",
        context_read(2, 1, 2800, 0) == 0,
    );
    told(
        b"its frame call: buffer, for a picture of 2,799",
        frame_read(2, 1, 2800, 0) == 2,
    );
    told(
        b"columns one less, one more: order",
        refused(1, 1, 2800, 0) && refused(3, 1, 2800, 0),
    );
    told(
        b"rows one less, one more: order",
        refused(2, 0, 2800, 0) && refused(2, 2, 2800, 0),
    );
    told(
        b"words one less, one more: order",
        refused(2, 1, 2799, 0) && refused(2, 1, 2801, 0),
    );
    told(
        b"a good sync is taken by each",
        sync_read(1, 1, 2800, 0, 0) && sync_read(2, 0, 2800, 0, 0) && sync_read(2, 1, 2801, 0, 0),
    );
}

fn glasses() {
    told(
        b"opened for each glass",
        is_sized(session::open(0), 0, 0, 0, 0) && is_sized(session::open(1), 0, 0, 0, 1),
    );
    told(
        b"glass of 32 bits: context taken",
        context_read(2, 1, 2800, 1) == 0,
    );
    told(
        b"its frame call with words of 16 bits: buffer",
        frame_read(2, 1, 2800, 1) == 2,
    );
    told(
        b"another glass: order",
        refused(2, 1, 2800, 2) && refused(2, 1, 2800, 255),
    );
    told(
        b"a good sync keeps both, and makes another 16 bits",
        sync_read(2, 1, 2800, 0, 0)
            && sync_read(2, 1, 2800, 1, 1)
            && sync_read(2, 1, 2800, 2, 0)
            && sync_read(1, 1, 2800, 255, 0),
    );
}

// ---- frames

// 01's ten values, of which the first is to be varied.
fn quant_with(first: u8) -> Quant {
    Quant {
        v: [first, 6, 6, 6, 7, 7, 8, 8, 8, 9],
    }
}

// The frame writer, 64 x 64, RLGR3, all pixels alike: the length of the frame, 0 where it is refused.
fn sent(q: Quant, out: &mut [u8]) -> usize {
    let mut pixels = [0u8; 12288];
    pixels.fill(200);
    let mut list = [7i32; 4096];
    let mut scratch = [7i32; 4096];
    let w = panel::write_frame(64, 64, 4, q, 1, &pixels, &mut list, &mut scratch, out);
    wire::count_of(w)
}

// The frame writer's number for a first quantiser.
fn quant_sent(first: u8) -> u8 {
    let pixels = [0u8; 3];
    let mut list = [7i32; 4096];
    let mut scratch = [7i32; 4096];
    let mut out = [0xA5u8; 256];
    let w = panel::write_frame(
        1,
        1,
        4,
        quant_with(first),
        1,
        &pixels,
        &mut list,
        &mut scratch,
        &mut out,
    );
    wire::number_of(w)
}

// The frame call on a message: its number.
fn shown_by(s: Session, message: &[u8], picture: &mut [u16]) -> u8 {
    let mut y = [7i32; 4096];
    let mut cb = [7i32; 4096];
    let mut cr = [7i32; 4096];
    let mut scratch = [7i32; 4096];
    let f = panel::read_frame(s, message, picture, &mut y, &mut cb, &mut cr, &mut scratch);
    wire::number_of(f)
}

// The same with the record of our own frames.
fn shown(message: &[u8], picture: &mut [u16]) -> u8 {
    shown_by(session::of_numbers(4, 64, 64, 4), message, picture)
}

// The number for our own frame with one byte of it changed, and whether the picture is as it was: 99 where it is not.
fn shown_changed(frame: &mut [u8], at: usize, byte: u8) -> u8 {
    let mut picture = [0x1234u16; 4096];
    let before = app_recording::lent::hash(&picture);
    if frame.len() <= at {
        return 98;
    }
    let old = frame[at];
    frame[at] = byte;
    let number = shown(frame, &mut picture);
    frame[at] = old;
    if app_recording::lent::hash(&picture) != before {
        return 99;
    }
    number
}

// 59 is the frame's byte of the first two quantisers: begin 14, region 23, the tileset's front 22.
fn frame_cases(frame: &mut [u8]) {
    let mut picture = [0x1234u16; 4096];
    told(
        b"our own frame, read: done",
        shown(frame, &mut picture) == 0,
    );
    told(b"its first word is its last", picture[0] == picture[4095]);
    told(
        b"its first word is 200 200 200 in 5-6-5",
        picture[0] == 0xCE59,
    );
    told(
        b"quantiser 5 in the low half: quant",
        shown_changed(frame, 59, 0x65) == 7,
    );
    told(
        b"quantiser 5 in the high half: quant",
        shown_changed(frame, 59, 0x56) == 7,
    );
    region_cases(frame);
    if frame.len() == 0 {
        return;
    }
    let last = frame.len() - 1;
    told(
        b"last byte damaged: field, picture as it was",
        shown_changed(frame, last, 1) == 5,
    );
}

// Bytes into a part of the output, where there is room.
fn put(out: &mut [u8], at: usize, from: &[u8]) {
    if let Some(part) = out.get_mut(at..at.wrapping_add(from.len())) {
        part.copy_from_slice(from);
    }
}

// The number for the first n bytes of a message.
fn shown_first(message: &[u8], n: usize, picture: &mut [u16]) -> u8 {
    match message.get(..n) {
        Some(first) => shown(first, picture),
        None => 98,
    }
}

// The number for our own frame with no rectangles: its region's block is 8 bytes shorter (blockLen at 16, count at 23, rectangles from 25 on).
fn shown_bare(frame: &[u8], picture: &mut [u16]) -> u8 {
    let n = frame.len();
    if n < 33 {
        return 98;
    }
    let mut bare = [0u8; 4096];
    put(&mut bare, 0, &frame[0..25]);
    put(&mut bare, 25, &frame[33..n]);
    bare[16] = 15;
    bare[23] = 0;
    shown_first(&bare, n - 8, picture)
}

// Document 02, request Three: count 0, and a single rectangle of width 0 (at 29).
fn region_cases(frame: &mut [u8]) {
    told(
        b"one rectangle of width 0: done, picture as it was",
        shown_changed(frame, 29, 0) == 0,
    );
    let mut picture = [0x1234u16; 4096];
    let mut whole = [0x4321u16; 4096];
    told(b"no rectangles: done", shown_bare(frame, &mut picture) == 0);
    told(
        b"no rectangles: the picture of one over all",
        shown(frame, &mut whole) == 0
            && app_recording::lent::hash(&picture) == app_recording::lent::hash(&whole),
    );
}

fn quants() {
    told(b"quantiser 5 not sent: quant", quant_sent(5) == 7);
    told(b"quantiser 6 sent", quant_sent(6) == 0);
    told(b"quantiser 15 sent", quant_sent(15) == 0);
    told(b"quantiser 16 not sent: quant", quant_sent(16) == 7);
}

fn frames() {
    let mut out = [0xA5u8; 4096];
    let n = sent(quant_with(6), &mut out);
    told(b"our own frame, written", 0 < n);
    if n <= 4096 {
        frame_cases(&mut out[0..n]);
    }
}

fn main() {
    app_text::lines::say(OUT, b"RLGR1\n");
    zeros(1);
    ones(1, 28);
    app_text::lines::say(OUT, b"RLGR3\n");
    zeros(4);
    ones(4, 27);
    app_text::lines::say(OUT, b"headers\n");
    headers();
    widths();
    app_text::lines::say(OUT, b"records\n");
    records();
    glasses();
    app_text::lines::say(OUT, b"frames\n");
    quants();
    frames();
}
