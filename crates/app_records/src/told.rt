// The records of a recording that are answered by a line and leave nothing: the component reader ('C', 'D'), the readers of settings ('s', 'S'), of capabilities
// and acknowledgements ('a', 'd', 'i'), the checker ('c') and the planner ('p').
use crate::taking::Record;

// A reader on the bytes of the record, or on what was written last.
#[derive(Clone, Copy, Debug, PartialEq, Eq)]
pub enum Answered {
    Component,
    ComponentBack,
    Settings,
    SettingsBack,
    Caps,
    AckCap,
    Ack,
    Check,
    Plan,
}

// The component reader on the part of a list that is lent; false where the recording asks for more than there is.
fn component(mode: usize, code: &[u8], len: usize) -> bool {
    let mut space = [0i32; 8192];
    let list: &mut [i32] = &mut space;
    if list.len() < len {
        return false;
    }
    app_answers::writers::component_call(
        app_recording::read::byte_of(mode),
        code,
        &mut list[0..len],
    );
    true
}

// Tile numbers into a list; how many there are, the largest number where they do not all fit.
pub fn put_picks(bytes: &[u8], list: &mut [u32]) -> usize {
    let n = bytes.len() / 4;
    if list.len() < n {
        return usize::MAX;
    }
    for i in 0..n {
        list[i] = app_recording::read::index_of(crate::taking::figure(bytes, i));
    }
    n
}

// The checker on the first n numbers of a list.
fn checked(r: Record, m: &[u8], list: &[u32], n: usize) -> bool {
    if list.len() < n {
        return false;
    }
    let old = crate::taking::one(m, r);
    let new = crate::taking::two(m, r);
    let w = crate::taking::figure(m, 0);
    let h = crate::taking::figure(m, 1);
    app_answers::plans::check_call(w, h, old, new, &list[0..n]);
    true
}

// 'c'
fn check(r: Record, m: &[u8]) -> bool {
    let mut list = [0u32; 4096];
    let n = put_picks(crate::taking::three(m, r), &mut list);
    checked(r, m, &list, n)
}

// 'p': the planner on the part of a list that is lent.
fn plan(r: Record, m: &[u8]) -> bool {
    let mut space = [7u32; 4096];
    let list: &mut [u32] = &mut space;
    let room = crate::taking::figure(m, 2);
    if list.len() < room {
        return false;
    }
    let old = crate::taking::one(m, r);
    let new = crate::taking::two(m, r);
    let w = crate::taking::figure(m, 0);
    let h = crate::taking::figure(m, 1);
    app_answers::plans::plan_call(w, h, old, new, &mut list[0..room]);
    true
}

// Where such a record stands in memory, and what was written last; false where the recording asks for more than there is.
pub fn told(kind: Answered, r: Record, m: &[u8], last: &[u8]) -> bool {
    let bytes = crate::taking::one(m, r);
    let first = crate::taking::figure(m, 0);
    let newest = app_recording::read::byte_of(first);
    match kind {
        Answered::Component => return component(first, bytes, crate::taking::figure(m, 1)),
        Answered::ComponentBack => return component(first, last, 4096),
        Answered::Check => return check(r, m),
        Answered::Plan => return plan(r, m),
        Answered::Settings => app_answers::cabinet::read_settings_call(newest, bytes),
        Answered::SettingsBack => app_answers::cabinet::read_settings_call(newest, last),
        Answered::Caps => app_answers::capabilities::read_caps_call(bytes),
        Answered::AckCap => app_answers::capabilities::read_ack_cap_call(bytes),
        Answered::Ack => app_answers::capabilities::read_ack_call(bytes),
    }
    true
}
