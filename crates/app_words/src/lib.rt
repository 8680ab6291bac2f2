// Text into lent memory, from a place on: bytes, and numbers in base 10 or 16 (specs/Words). What the programs write as their result is made so, by functions whose
// text is an equation; only then it goes to the outside. No customer links it.
#![tactic(auto)]

pub mod saving;

ghost use Rattle.std.specs.Prelude.{◌≡◌, ◌+◌, ◌≤◌, length};
ghost use Rattle.app_words.specs.Words.{decimal_of, hex_of, Put};

// A text; the answer is the place behind it. `app_compare` has the same body under its own `Put`, which its theorems are about.
pub fn put_text(out: &mut [u8], at: usize, text: &[u8]) -> usize
    requires { at + length text.now ≤ length out.old }
    ensures { Put out.old at text.now out.new result }
{
    let end = at + text.len();
    out[at..end].copy_from_slice(text);
    end
}

// A number in base 10.
pub fn put_decimal(out: &mut [u8], at: usize, n: u64) -> usize
    requires { at + 20 ≤ length out.old }
    ensures { Put out.old at (decimal_of n) out.new result × (result ≤ at + 20) }
{
    let mut text = [0u8; 20];
    let k = io::decimal(n, &mut text);
    put_text(out, at, &text[..k])
}

// A number in base 16, of at least so many digits, from 1 to 16.
pub fn put_hex(out: &mut [u8], at: usize, n: u64, least: usize) -> usize
    requires { (at + 16 ≤ length out.old) × ((1 ≤ least) × (least ≤ 16)) }
    ensures { Put out.old at (hex_of least n) out.new result × (result ≤ at + 16) }
{
    let mut text = [0u8; 16];
    let k = io::hex(n, least, &mut text);
    put_text(out, at, &text[..k])
}
