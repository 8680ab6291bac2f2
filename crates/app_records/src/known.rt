// The records of a recording that leave another session record: a session opened for a glass ('T'), a record that is put whatever it is ('R'), a header call
// ('H'), and four on what the header writer wrote ('Y').
use crate::taking::Record;
use session::Session;

#[derive(Clone, Copy, Debug, PartialEq, Eq)]
pub enum Leaving {
    Put,
    Opened,
    Header,
    HeadersBack,
}

// 'R': its four numbers, on the glass that the session has.
fn put(m: &[u8], glass: u8) -> Session {
    Session {
        glass,
        ..session::of_numbers(
            app_recording::read::byte_of(crate::taking::figure(m, 0)),
            app_recording::read::word_of(crate::taking::figure(m, 1)),
            app_recording::read::word_of(crate::taking::figure(m, 2)),
            app_recording::read::byte_of(crate::taking::figure(m, 3)),
        )
    }
}

// 'T': 32 for words of 32 bits.
fn opened(m: &[u8]) -> Session {
    if crate::taking::figure(m, 0) == 32 {
        return session::open(1);
    }
    session::open(0)
}

// Where such a record stands in memory, and what was written last.
pub fn known(kind: Leaving, s: Session, r: Record, m: &[u8], last: &[u8]) -> Session {
    match kind {
        Leaving::Put => put(m, s.glass),
        Leaving::Opened => opened(m),
        Leaving::Header => app_calls::calls::header_call(s, crate::taking::one(m, r)),
        Leaving::HeadersBack => app_calls::calls::headers_back_call(s, last),
    }
}
