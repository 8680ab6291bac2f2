// The component writer of document 01: "The component code", the numbers 5, 2, 9, 6, 13 and their order, and "Writers leave their output untouched on
// every refusal; when done they say the length in bytes, refused 0, and bytes past it are untouched." So the code is measured before it is written, but
// where its numbers are slight and the output has room for the longest code of such numbers: then no refusal is left.
ghost use Rattle.std.specs.Prelude.{◌≡◌, true, ◌&&◌, ◌+◌, ◌-◌, ◌≤◌, length};
ghost use Rattle.std.specs.Int.Signed.{le_z};
ghost use Rattle.wire.specs.Le.{patch};
ghost use Rattle.wire.specs.Refusal.{number_of};
ghost use Rattle.code_write.specs.Write.{bytes_of, all_in_range, ask_fault, code_fault, write_fault, sized_of, ComponentWritten};
ghost use Rattle.code_write.specs.laws.Span.{all_from, is_slight};

use bits::Pen;
use wire::Refusal;

// Whether a number is from `least` to `most`.
fn between(x: i32, least: i32, most: i32) -> bool
    ensures { result ≡ (le_z least x && le_z x most) }
{
    least <= x && x <= most
}

// Whether all numbers are. No way out of the loop before its end, so that a machine may take several numbers at once.
fn within(list: &[i32], least: i32, most: i32) -> bool
    ensures { result ≡ all_from least most list.now }
{
    let mut good = true;
    for x in list {
        good &= between(*x, least, most);
    }
    good
}

// Whether all numbers of a list are from -32,767 to 32,767.
pub fn in_range(list: &[i32]) -> bool
    ensures { result ≡ all_in_range list.now }
{
    within(list, -32767, 32767)
}

// Whether the last 64 numbers are within 1,536 and the others within 512. Whatever such numbers are, their code has at most 64,964 bytes (law `slight_few`).
fn is_slight(list: &[i32]) -> bool
    requires { length list.now ≡ 4096 }
    ensures { result ≡ is_slight list.now }
{
    within(&list[..4032], -512, 512) && within(&list[4032..4096], -1536, 1536)
}

// The code's size in bytes.
fn byte_size(mode: u8, list: &[i32]) -> usize
    requires { (length list.now ≤ 4096) × (all_in_range list.now ≡ true) }
    ensures { result ≡ length (bytes_of mode list.now) }
{
    (crate::put::list_size(list, mode == 4) + 7) / 8
}

// A component by itself: 9, 6, or its size in bytes.
pub fn measure_component(mode: u8, list: &[i32]) -> Result<usize, Refusal>
    requires { length list.now ≤ 4096 }
    ensures { result ≡ sized_of (code_fault mode list.now) (length (bytes_of mode list.now)) }
{
    if !in_range(list) {
        return Err(Refusal::Range);
    }
    let size = byte_size(mode, list);
    if 65535 < size {
        return Err(Refusal::TooBig);
    }
    Ok(size)
}

// Writes a component at a place of the output. The answer is the place past it.
pub fn put_component(mode: u8, list: &[i32], out: &mut [u8], at: usize) -> usize
    requires { (length list.now ≤ 4096) × (all_in_range list.now ≡ true) × (at + length (bytes_of mode list.now) ≤ length out.old) }
    ensures { (out.new ≡ patch out.old at (bytes_of mode list.now)) × (result ≡ at + length (bytes_of mode list.now)) }
{
    let p = Pen { at, acc: 0, n: 0 };
    let q = crate::put::put_list(out, p, list, mode == 4);
    let end = q.at + (q.n + 7) / 8;
    bits::finish(out, q);
    end
}

// What is judged first: mode (5), list (2).
fn call_judge(mode: u8, n: usize) -> Result<(), Refusal>
    ensures { number_of result ≡ ask_fault mode n }
{
    if !wire::is_mode(mode as usize) {
        return Err(Refusal::Field);
    }
    if n != 4096 {
        return Err(Refusal::Buffer);
    }
    Ok(())
}

// 01's refusals, in their order. A slight list that has room for the longest code of such lists is not measured.
fn judge(mode: u8, list: &[i32], room: usize) -> Result<(), Refusal>
    ensures { number_of result ≡ write_fault mode list.now room }
{
    call_judge(mode, list.len())?;
    if 64964 <= room && is_slight(list) {
        return Ok(());
    }
    let size = measure_component(mode, list)?;
    if room < size {
        return Err(Refusal::Room);
    }
    Ok(())
}

// The component writer, for any input.
pub fn write_component(mode: u8, list: &[i32], out: &mut [u8]) -> Result<usize, Refusal>
    ensures { ComponentWritten mode list.now out.old out.new result }
{
    judge(mode, list, out.len())?;
    Ok(put_component(mode, list, out, 0))
}
