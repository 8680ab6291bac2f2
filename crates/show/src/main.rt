// Shows a RemoteFX stream:  show [FILE] [-o OUT.bmp|OUT.png] [-p OUT.pic] [-c N] [-g 16|32]
// The stream, header blocks and frames as they follow each other, comes from FILE or from standard input, N bytes at a time (65,536 where nothing is said), and
// goes through the collector (document 02, request One), so that a stream of any length is shown: only the block or frame under way is held, at most 3,145,728
// bytes; a longer one is 13. A line on standard error says what each call came to. At the end the picture goes to OUT.bmp, or to standard output, as a BMP
// (rows from below), or to OUT.png, by the end of that name, as a PNG; and with -p also to OUT.pic: width and height of 2 bytes, then the words, all
// little-endian. The session is opened for a glass of 16 bits (5-6-5, a BMP of 16 bits a pixel), or with -g 32 for one of 32 (8-8-8, a BMP of 32); -p has words
// of 16 bits only. The picture starts black, and has at most 1,920 x 1,080 words of 16 bits, or 1,048,576 of 32: a program has 8 MB of stack and no other
// memory. The kit has no exit status: where nothing is written, a line on standard error says why.
#![tactic(auto)]

mod args;
mod drawing;
mod playing;

ghost use Rattle.std.specs.Prelude.{◌≡◌};
ghost use Rattle.session.specs.Header.{record_of};
ghost use Rattle.collect.specs.Collect as Collect;
ghost use Rattle.app_calls.specs.Given.{fresh_desk};

use crate::args::Options;
use app_calls::given::Desk;
use app_pictures::word::Word;
use app_text::arguments::Usage;
use app_text::files::Source;
use app_text::lines::ERR;
use collect::Collector;
use colour::GlassWord;

// What the collector is left with: a refusal, or bytes of a block or frame that is not whole.
fn say_left(c: Collector) {
    if c.refused != 0 {
        app_text::lines::say(ERR, b"show: the stream from here on is ");
        app_text::lines::say_refused(ERR, c.refused);
        return;
    }
    if c.held != 0 || c.seen != 0 {
        app_text::lines::say_number(
            ERR,
            b"show: the stream ends inside a block or frame, after bytes of it: ",
            (c.held as u64).wrapping_add(c.seen as u64),
        );
        app_text::lines::say(ERR, b"\n");
    }
}

// Is there a picture at the end, in so many words? If not, that is said.
fn is_whole(d: Desk, words: usize) -> bool {
    let w = d.width;
    let h = d.height;
    if w == 0 {
        app_text::lines::say(
            ERR,
            b"show: no channels block was taken: no size is known, and no picture is written\n",
        );
        return false;
    }
    if words < w as usize * h as usize {
        app_text::lines::say_number(
            ERR,
            b"show: no picture is written: the channel has more words than ",
            words as u64,
        );
        app_text::lines::say(ERR, b"\n");
        return false;
    }
    true
}

// Nothing called and nothing gathered yet, on a glass.
fn fresh(glass: u8) -> Desk
    ensures { result ≡ fresh_desk (record_of glass 0 0 0 0) Collect.fresh }
{
    app_calls::given::fresh(session::open(glass), collect::reset())
}

// Shows a stream, and writes its picture; the desk at the end where there is one to write.
fn show<W: GlassWord + Word>(
    rt: &HostRuntime,
    o: Options,
    source: &mut Source,
    piece: &mut [u8],
    store: &mut [u8],
    picture: &mut [W],
) -> Option<Desk> {
    let d = crate::drawing::run(fresh(W::GLASS), source, o.size, piece, store, picture);
    say_left(d.c);
    if is_whole(d, picture.len()) {
        app_pictures::out::picture_out(rt, o.out, picture, d.width, d.height);
        return Some(d);
    }
    None
}

// Opens the file that an argument names, or standard input; none where that failed, which is said.
fn open_input(rt: &HostRuntime, i: Option<usize>) -> Option<Source> {
    let i = match i {
        Some(i) => i,
        None => return Some(Source::Standard(rt.stdin())),
    };
    let mut path = io::buffer();
    let n = app_text::arguments::argument(rt, i, &mut path);
    match app_text::files::open(rt, &path[..n]) {
        Ok(file) => Some(Source::Named(file)),
        Err(e) => {
            app_text::files::say_failed(&path[..n], e);
            None
        }
    }
}

// The large ones come as arrays: their lengths are known without counting to a million.
fn show_in<W: GlassWord + Word, const N: usize>(
    rt: &HostRuntime,
    o: Options,
    source: &mut Source,
    piece: &mut [u8; 65536],
    store: &mut [u8; 3145728],
    picture: &mut [W; N],
) -> Option<Desk> {
    show(rt, o, source, piece, store, picture)
}

// On a glass of 16 bits; a .pic file too, where one is asked for.
fn start(rt: &HostRuntime, o: Options, source: &mut Source) {
    let mut piece = [0u8; 65536];
    let mut store = [0u8; 3145728];
    let mut picture = [0u16; 2073600];
    let shown = show_in(rt, o, source, &mut piece, &mut store, &mut picture);
    if let (Some(d), Some(i)) = (shown, o.pic) {
        app_pictures::out::pic_out(rt, i, &picture, d.width, d.height);
    }
}

fn start_32(rt: &HostRuntime, o: Options, source: &mut Source) {
    let mut piece = [0u8; 65536];
    let mut store = [0u8; 3145728];
    let mut picture = [0u32; 1048576];
    show_in(rt, o, source, &mut piece, &mut store, &mut picture);
}

// On the one glass or the other.
fn on_glass(rt: &HostRuntime, o: Options, source: &mut Source) {
    if o.wide {
        start_32(rt, o, source);
        return;
    }
    start(rt, o, source);
}

fn run(rt: &HostRuntime, o: Options) {
    if let (true, Some(_)) = (o.wide, o.pic) {
        app_text::lines::say(
            ERR,
            b"show: a .pic file has words of 16 bits: -p does not go with -g 32\n",
        );
        return;
    }
    if let Some(source) = open_input(rt, o.file) {
        let mut from = source;
        on_glass(rt, o, &mut from);
    }
}

fn main(rt: HostRuntime) {
    match crate::args::arguments(&rt) {
        Ok(o) => run(&rt, o),
        Err(Usage) => app_text::lines::say(
            ERR,
            b"usage: show [FILE] [-o OUT.bmp|OUT.png] [-p OUT.pic] [-c N] [-g 16|32]\n",
        ),
    }
}
