// The frames of a stream on a glass of either size: each is drawn by its call, and all of a stream is shown. What lends no picture is in `playing`.
ghost use Rattle.std.specs.Prelude.{◌≡◌, map};
ghost use Rattle.app_calls.specs.Given.{scene};
ghost use Rattle.show.specs.Play.{frame_drawn, drawn, ShownTo};

use app_calls::given::Desk;
use app_text::files::Source;
use collect::Collected;
use colour::GlassWord;

// A frame call, and its line.
fn frame<W: GlassWord>(d: Desk, message: &[u8], picture: &mut [W])
    ensures { map W.number picture.new ≡ frame_drawn W.GLASS d.s message.now (map W.number picture.old) }
{
    let mut y = [0i32; 4096];
    let mut cb = [0i32; 4096];
    let mut cr = [0i32; 4096];
    let mut scratch = [0i32; 4096];
    let r = panel::read_frame(
        d.s,
        message,
        picture,
        &mut y,
        &mut cb,
        &mut cr,
        &mut scratch,
    );
    app_text::lines::say_frame(
        app_text::lines::ERR,
        d.frames,
        wire::number_of(r),
        wire::count_of(r),
    );
}

// A part that was handed on: a frame is drawn.
fn draw<W: GlassWord>(d: Desk, answer: Collected, store: &[u8], picture: &mut [W])
    ensures { map W.number picture.new ≡ drawn W.GLASS store.now d.s answer (map W.number picture.old) }
{
    if let Collected::Frame(size) = answer {
        frame(d, app_text::loading::first(store, size), picture);
    }
}

// The whole input. A proved loop ends, and nothing says that an input does: the turns are counted up to a number that no run comes to.
pub fn run<W: GlassWord>(
    d: Desk,
    source: &mut Source,
    size: usize,
    piece: &mut [u8],
    store: &mut [u8],
    picture: &mut [W],
) -> Desk
    ensures { ShownTo W.GLASS (scene d store.old (map W.number picture.old)) (scene result store.new (map W.number picture.new)) }
{
    let mut t = crate::playing::begin(d);
    for _ in 0..u64::MAX {
        if !t.go {
            return t.d;
        }
        t = crate::playing::next(t, source, size, piece, store);
        draw(t.d, t.answer, store, picture);
    }
    t.d
}
