// Two pictures of one size: a full frame of the old one, then a short frame of the new one, of the tiles that differ (02, request Eleven).
use crate::args::Options;
use app_send::Unmade;
use app_send::both::Both;
use settings::Settings;

// Both pictures, read into the two halves of a buffer: how many bytes of each.
#[derive(Clone, Copy)]
struct Came {
    old: usize,
    new: usize,
}

// None where they were not both read whole, which is said.
fn load_both(rt: &HostRuntime, to: i32, o: Options, data: &mut [u8]) -> Option<Came> {
    let end = data.len();
    let half = end / 2;
    let long = b"a picture is too large: at most 524288 pixels each are taken";
    let old = app_text::loading::load(rt, to, b"send", o.old, &mut data[0..half], long)?;
    let new = app_text::loading::load(rt, to, b"send", o.file, &mut data[half..end], long)?;
    Some(Came { old, new })
}

// ---- the tiles that are sent

// Those that differ; none where the pictures are not of one size, which is said later.
fn changed(old: &[u8], new: &[u8], picks: &mut [u32]) -> usize {
    match app_send::pair::read(old, new) {
        Ok(p) => {
            let listed = plan::make::make_plan(
                p.width,
                p.height,
                app_text::loading::rest(old, p.old),
                app_text::loading::rest(new, p.new),
                picks,
            );
            listed.unwrap_or(0)
        }
        Err(_) => 0,
    }
}

// ---- the stream

// The two pictures' bytes.
fn old_of(data: &[u8], c: Came) -> &[u8] {
    let half = data.len() / 2;
    app_text::loading::first(&data[0..half], c.old)
}

fn new_of(data: &[u8], c: Came) -> &[u8] {
    let end = data.len();
    let half = end / 2;
    app_text::loading::first(&data[half..end], c.new)
}

// The stream of the pictures that were read, and of the tiles that were listed.
fn make(
    s: Settings,
    index: u32,
    c: Came,
    data: &[u8],
    picks: &[u32],
    out: &mut [u8],
) -> Result<Both, Unmade> {
    app_send::both::pictures(s, index, old_of(data, c), new_of(data, c), picks, out)
}

// "send: done, 2 of 40 tiles, 9000 bytes instead of 120000": of the short frame
fn say_saved(to: i32, data: &[u8], c: Came, b: Both) {
    let of = match app_send::pair::read(old_of(data, c), new_of(data, c)) {
        Ok(p) => app_send::both::tiles_of(p.width, p.height),
        Err(_) => 0,
    };
    app_text::lines::say_number(to, b"send: done, ", b.tiles as u64);
    app_text::lines::say_number(to, b" of ", of as u64);
    app_text::lines::say_number(to, b" tiles, ", b.short as u64);
    app_text::lines::say_number(to, b" bytes instead of ", b.full as u64);
    app_text::lines::say(to, b"\n");
}

fn send(
    rt: &HostRuntime,
    to: i32,
    o: Options,
    s: Settings,
    c: Came,
    data: &[u8],
    picks: &[u32],
    out: &mut [u8],
) {
    match make(s, o.index, c, data, picks, out) {
        Ok(b) => {
            let bytes = app_text::loading::first(out, b.size);
            if app_words::saving::save(rt, to, b"send", o.out, bytes) {
                say_saved(to, data, c, b);
            }
        }
        Err(why) => crate::say_unmade(to, why),
    }
}

fn pick_and_send(
    rt: &HostRuntime,
    to: i32,
    o: Options,
    s: Settings,
    c: Came,
    data: &[u8],
    picks: &mut [u32],
    out: &mut [u8],
) {
    let n = changed(old_of(data, c), new_of(data, c), picks);
    if n <= picks.len() {
        send(rt, to, o, s, c, data, &picks[0..n], out);
    }
}

pub fn two(rt: &HostRuntime, to: i32, o: Options, s: Settings, data: &mut [u8], out: &mut [u8]) {
    let mut picks = [0u32; 2048];
    if let Some(c) = load_both(rt, to, o, data) {
        pick_and_send(rt, to, o, s, c, data, &mut picks, out);
    }
}
