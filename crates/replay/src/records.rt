// What goes on from record to record of a recording. No section of document 01 is made true here: `replay` shows by its calls that the proved library does what
// the recording says.
ghost use Rattle.std.specs.Prelude.{◌≡◌};
ghost use Rattle.replay.specs.Desk.{stopped_desk, fresh_desk, records_desk, written_desk, picture_desk, store_desk, told_desk};

use crate::collector::Store;
use app_text::lines::OUT;
use collect::Collector;
use session::Session;

// The session's record and the collector's, the words of picture that are lent and whether they have 32 bits, the bytes last written, of the store's memory the
// bytes that are lent and those that were filled, and whether it goes on.
#[derive(Clone, Copy)]
pub struct Desk {
    pub s: Session,
    pub c: Collector,
    pub picture: usize,
    pub wide: bool,
    pub written: usize,
    pub lent: usize,
    pub filled: usize,
    pub go: bool,
}

// No record more.
pub fn stopped(d: Desk) -> Desk
    ensures { result ≡ stopped_desk d }
{
    Desk { go: false, ..d }
}

// The recording asks for too much, or is cut.
pub fn bad(d: Desk) -> Desk
    ensures { result ≡ stopped_desk d }
{
    app_text::lines::say(OUT, b"bad recording\n");
    stopped(d)
}

// A new case: fresh records, no picture, nothing written, no store.
pub fn fresh() -> Desk
    ensures { result ≡ fresh_desk }
{
    Desk {
        s: session::open(0),
        c: collect::reset(),
        picture: 0,
        wide: false,
        written: 0,
        lent: 0,
        filled: 0,
        go: true,
    }
}

// After a call that leaves all as it was; bad where it could not be made.
pub fn after_told(d: Desk, made: bool) -> Desk
    ensures { result ≡ told_desk d made }
{
    if made {
        return d;
    }
    bad(d)
}

// After header calls.
pub fn with_session(d: Desk, s: Session) -> Desk
    ensures { result ≡ records_desk d s d.c }
{
    with_records(d, s, d.c)
}

// After a call that wrote n bytes; bad where it could not be made, which is more bytes than there can be.
pub fn with_written(d: Desk, n: usize) -> Desk
    ensures { result ≡ written_desk d n }
{
    if n == usize::MAX {
        return bad(d);
    }
    Desk {
        written: n,
        go: true,
        ..d
    }
}

// With a picture of n words lent.
pub fn with_picture(d: Desk, n: usize, wide: bool) -> Desk
    ensures { result ≡ picture_desk d n wide }
{
    if n == usize::MAX {
        return bad(d);
    }
    Desk {
        picture: n,
        wide,
        go: true,
        ..d
    }
}

// After calls through the collector.
pub fn with_records(d: Desk, s: Session, c: Collector) -> Desk
    ensures { result ≡ records_desk d s c }
{
    Desk {
        s,
        c,
        go: true,
        ..d
    }
}

// With another store; bad where there is none so long.
pub fn with_store(d: Desk, k: Store) -> Desk
    ensures { result ≡ store_desk d k }
{
    if k.lent == usize::MAX {
        return bad(d);
    }
    Desk {
        c: k.c,
        lent: k.lent,
        filled: k.filled,
        go: true,
        ..d
    }
}
