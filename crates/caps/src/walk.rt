// One walk along the wire, field by field: each is read off the front of what is left of the message.
ghost use Rattle.std.specs.Prelude.{◌≡◌, ◌+◌, ◌≤◌, ◌<◌, length};
ghost use Rattle.wire.specs.Refusal.{number_of, refusal_number};
ghost use Rattle.caps.specs.Walk.{size, most};
ghost use Rattle.caps.specs.Step.{number_at, Next, Fixed, ends};

use wire::Refusal;

// A field has one, two or four bytes.
#[derive(Clone, Copy)]
pub enum Width {
    One,
    Two,
    Four,
}

pub fn size(w: Width) -> usize
    ensures { result ≡ size w }
{
    match w {
        Width::One => 1,
        Width::Two => 2,
        Width::Four => 4,
    }
}

// The number of a field that is all there.
pub fn number(m: &[u8], at: usize, w: Width) -> usize
    requires { at + size w ≤ length m.now }
    ensures { (result ≡ number_at w m.now at) × (result < most w) }
{
    match w {
        Width::One => wire::byte_at(m, at),
        Width::Two => wire::le16_at(m, at),
        Width::Four => wire::le32_at(m, at),
    }
}

// The next field: one whose bytes are not all there is 1.
pub fn next(rest: &mut &[u8], w: Width) -> Result<usize, Refusal>
    ensures { Next w rest.old.now rest.new.now result }
{
    let m = *rest;
    let n = size(w);
    if m.len() < n {
        return Err(Refusal::Cut);
    }
    *rest = &m[n..];
    Ok(number(m, 0, w))
}

// A field with a fixed value.
pub fn fixed(rest: &mut &[u8], w: Width, v: usize, otherwise: Refusal) -> Result<(), Refusal>
    ensures { Fixed w v (refusal_number otherwise) rest.old.now rest.new.now result }
{
    if next(rest, w)? != v {
        return Err(otherwise);
    }
    Ok(())
}

// The end of the message: bytes after the last field are 4.
pub fn finish(rest: &[u8]) -> Result<(), Refusal>
    ensures { number_of result ≡ ends rest.now }
{
    if !rest.is_empty() {
        return Err(Refusal::Length);
    }
    Ok(())
}
