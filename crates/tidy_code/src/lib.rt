// What other encoders' component codes are, by the sender that was named: FreeRDP's, with one byte 00 behind some, and those of MS-RDPRFX's own sample, with one value
// too many and a byte 00. A component whose bytes mean a list for that sender is written as document 01's own code of that list; any other is kept byte for byte
// (specs/Sent; specs/Request says what this makes true). 01's own bytes are read by the component reader; the 4,097 values by `longer`, whose elements are the filter's own.
#![tactic(auto)]

ghost use Rattle.std.specs.Prelude.{◌≡◌, ◌+◌, ◌≤◌, length};
ghost use Rattle.wire.specs.Le.{patch};
ghost use Rattle.tidy_code.specs.Sent.{is_sender, unclear, padded_meant, surplus_meant, others_meant, meant_by, list_meant, tidy_code, Answers, MeantRead};

mod element;
mod longer;

// Is this number a sender's?
pub fn is_sender(sender: u8) -> bool
    ensures { result ≡ is_sender sender }
{
    sender <= 2
}

// Nothing is meant: the list is left with zeros.
fn refuse(list: &mut [i32]) -> bool
    requires { length list.old ≡ 4096 }
    ensures { Answers unclear list.new result }
{
    whole::clear(list);
    false
}

// 01's bytes of a list whose last byte has at most three bits free: FreeRDP puts one byte 00 behind such codes.
fn read_padded(mode: u8, w: &[u8], list: &mut [i32]) -> bool
    requires { length list.old ≡ 4096 }
    ensures { Answers (padded_meant mode w.now) list.new result }
{
    let a = code::read::read_component(mode, w, list);
    if code::read::reading_number(a) != 0 {
        return refuse(list);
    }
    if 5 <= code::read::reading_bits(a) % 8 {
        return true;
    }
    refuse(list)
}

// A sender's own form without its last byte.
fn read_surplus(sender: u8, mode: u8, w: &[u8], list: &mut [i32]) -> bool
    requires { (length w.now ≤ 65535) × (length list.old ≡ 4096) }
    ensures { Answers (surplus_meant sender mode w.now) list.new result }
{
    if sender == 1 {
        return read_padded(mode, w, list);
    }
    if sender == 2 {
        return longer::read_longer(w, mode == 4, list);
    }
    refuse(list)
}

// Bytes that are not 01's: those of the sender, which end with 00.
fn read_others(sender: u8, mode: u8, s: &[u8], list: &mut [i32]) -> bool
    requires { (length s.now ≤ 65535) × (length list.old ≡ 4096) }
    ensures { Answers (others_meant sender mode s.now) list.new result }
{
    if let [w @ .., 0] = s {
        return read_surplus(sender, mode, w, list);
    }
    refuse(list)
}

// Reads the list that a component's bytes mean for a sender: whether they mean one. The list holds zeros where they do not.
pub fn read_meant(sender: u8, mode: u8, s: &[u8], list: &mut [i32]) -> bool
    requires { length list.old ≡ 4096 }
    ensures { MeantRead sender mode s.now list.new result }
{
    whole::clear(list);
    if !wire::is_mode(mode as usize) {
        return false;
    }
    if 65535 < s.len() {
        return false;
    }
    if code::read::reading_number(code::read::read_component(mode, s, list)) == 0 {
        return true;
    }
    read_others(sender, mode, s, list)
}

// Writes a component's tidied code at a place of the output; `list` is lent to work in, and holds what reading left. The answer is the place past the code, which
// is not measured: it is never longer than what came (law `never_longer`).
pub fn put_tidied(
    sender: u8,
    mode: u8,
    s: &[u8],
    list: &mut [i32],
    out: &mut [u8],
    at: usize,
) -> usize
    requires { (length list.old ≡ 4096) × (at + length s.now ≤ length out.old) }
    ensures { (out.new ≡ patch out.old at (tidy_code sender mode s.now)) × (result ≡ at + length (tidy_code sender mode s.now)) × (list.new ≡ list_meant (meant_by sender mode s.now)) }
{
    if read_meant(sender, mode, s, list) {
        return code_write::call::put_component(mode, list, out, at);
    }
    collect::copy(out, at, s, 0, s.len());
    at + s.len()
}
