// The codes of 001's worked sample (4.2.3 and 4.2.4.1) against their decoded lists, and those of 4.2.4.1 against 001's print of the lists (4.2.4.2): 01's "If
// it disagrees with a rule here, its decoded values decide, save in colour and 11". A code that answers 11 is cut to the bits reported; of one that answers 10
// the bits before its last pair are compared.
use app_text::lines::OUT;
use code::element::{Element, State};

// The mode of the sample, RLGR3.
pub const MODE: u8 = 4;

// One element of a code; none where it is refused, or the state is none of a code.
fn element(s: &[u8], c: State, left: usize) -> Option<Element> {
    if 80 < c.kp || 80 < c.krp || 65535 < s.len() {
        return None;
    }
    code::element::read_element(s, true, c, left).ok()
}

// How many places an element fills, at most all, and the state past it.
fn past(e: Element) -> (usize, State) {
    match e {
        Element::Zeros(z, t) => (z, t),
        Element::One(z, _, t) => (z.min(4095) + 1, t),
        Element::Two(_, _, t) => (2, t),
    }
}

// The state before the element at which a code is refused.
fn before_refusal(s: &[u8]) -> State {
    let mut c = State {
        at: 0,
        kp: 8,
        krp: 8,
    };
    let mut left: usize = 4096;
    while let Some(e) = element(s, c, left) {
        let (places, t) = past(e);
        if places == 0 || left < places {
            return c;
        }
        c = t;
        left -= places;
    }
    c
}

// Whether an element is a pair of these two values.
fn is_pair(e: Option<Element>, first: i32, second: i32) -> bool {
    match e {
        Some(Element::Two(a, b, _)) => {
            a <= 65534
                && b <= 65534
                && code::element::unfolded(a) == first
                && code::element::unfolded(b) == second
        }
        _ => false,
    }
}

// The bit at a place, 2 past the end.
fn digit(s: &[u8], at: usize) -> usize {
    if s.len() <= at / 8 {
        return 2;
    }
    bits::digit(s, at)
}

// How many of the first n bits are the same.
fn agree_bits(s: &[u8], t: &[u8], n: usize) -> usize {
    (0..n).filter(|i| digit(s, *i) == digit(t, *i)).count()
}

// A code cut to its first bits, filled up with zeros; the answer is its length in bytes.
fn cut(code: &mut [u8], bits: usize) -> usize {
    let n = bits / 8;
    if bits % 8 == 0 {
        return n;
    }
    if n < code.len() {
        let spare = 8 - bits % 8;
        code[n] = code[n] >> spare << spare;
        return n + 1;
    }
    0
}

// Whether the last pair, read as if a place were left behind it, is the list's last value and -1.
fn is_last(printed: &[u8], c: State, list: &[i32]) -> bool {
    if list.len() < 4096 {
        return false;
    }
    is_pair(element(printed, c, 2), list[4095], -1)
}

fn say_last(is: bool) {
    app_text::lines::say(OUT, b" agree; that pair is the last value and -1: ");
    if is {
        app_text::lines::say(OUT, b"yes\n");
    } else {
        app_text::lines::say(OUT, b"no\n");
    }
}

// A code that answers 10 at its last pair, whose second half is a value -1 that no place is left for: the decoded list
// is written, and its code compared up to that pair.
fn against_written(name: &[u8], printed: &[u8], list: &[i32], code: &mut [u8]) -> usize {
    let w = code_write::call::write_component(MODE, list, code);
    let c = before_refusal(printed);
    let at = c.at;
    app_text::lines::say(OUT, name);
    app_text::lines::say_number(
        OUT,
        b": bits before the last pair, of the list written: ",
        agree_bits(printed, code, at) as u64,
    );
    app_text::lines::say_number(OUT, b" of ", at as u64);
    say_last(is_last(printed, c, list));
    wire::count_of(w)
}

// A code that answers 11, cut to the bits that the reader reports, against the decoded list.
fn against_list(
    rt: &HostRuntime,
    name: &[u8],
    list_name: &[u8],
    list: &[i32],
    code: &mut [u8],
    bits: usize,
) -> usize {
    crate::stages::load(rt, name, code);
    let n = cut(code, bits);
    let mut got = [0; 4096];
    let r = code::read::read_component(MODE, app_text::loading::first(code, n), &mut got);
    if code::read::reading_number(r) == 0 {
        crate::stages::say_agree(list_name, crate::stages::agree(&got, list), list.len());
        return n;
    }
    app_text::lines::say(OUT, list_name);
    app_text::lines::say(OUT, b": the code that was cut is refused\n");
    n
}

// What a code answers as printed; the bits that the reader reports.
fn answer(name: &[u8], printed: &[u8]) -> usize {
    let mut list = [0; 4096];
    let r = code::read::read_component(MODE, printed, &mut list);
    let number = code::read::reading_number(r);
    let bits = code::read::reading_bits(r);
    app_text::lines::say(OUT, name);
    app_text::lines::say_number(OUT, b" as printed: answer ", number as u64);
    app_text::lines::say_number(OUT, b", bits ", bits as u64);
    app_text::lines::say(OUT, b"\n");
    bits
}

// A code's values against a list's.
fn values(
    rt: &HostRuntime,
    name: &[u8],
    list_name: &[u8],
    printed: &[u8],
    list: &[i32],
    code: &mut [u8],
) -> usize {
    let bits = answer(name, printed);
    if bits == 0 {
        return against_written(list_name, printed, list, code);
    }
    against_list(rt, name, list_name, list, code, bits)
}

// The name of a code: that of its list, without "_list".
fn code_name(list_name: &[u8]) -> &[u8] {
    if list_name.len() < 5 {
        return list_name;
    }
    let a = 0;
    let e = list_name.len() - 5;
    &list_name[a..e]
}

// One code: what it answers as printed, then its values. It leaves a clean code of the same list, whose length in bytes is the answer.
pub fn component(rt: &HostRuntime, list_name: &[u8], code: &mut [u8]) -> usize {
    let mut printed = [0u8; 1024];
    let mut list = [0; 4096];
    let name = code_name(list_name);
    let n = crate::stages::load(rt, name, &mut printed);
    crate::stages::load_list(rt, list_name, &mut list);
    values(
        rt,
        name,
        list_name,
        app_text::loading::first(&printed, n),
        &list,
        code,
    )
}

// The list of a clean code against 001's print of it, sixteen numbers a row.
pub fn printed(rt: &HostRuntime, name: &[u8], code: &[u8]) {
    let mut list = [0; 4096];
    code::read::read_component(MODE, code, &mut list);
    crate::stages::printed(rt, name, &list, 16);
}
