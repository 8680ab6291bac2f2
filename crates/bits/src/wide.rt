// Document 02, request Ten, for the writer: a pen at which up to 31 bits wait in a word of 64, and which puts four bytes out at once. What it has written is
// said as of every pen (`pen_bits`); `close` makes of it one at which less than a byte waits.
ghost use Rattle.std.specs.Prelude.{◌≡◌, true, ◌+◌, ◌^◌, ◌<◌, ◌≤◌, length, replicate};
ghost use Rattle.bits.specs.Bits.{num_bits, gr_bits};
ghost use Rattle.bits.specs.Pen.{Put, ReadyWide, PutWide, empty_at};
ghost use Rattle.bits.specs.laws.Gr.{gr_len};
ghost use Rattle.bits.specs.laws.Wide.{four_set};

use crate::Pen;

// Four bytes at a place, high byte first: the low 32 bits of v.
fn put_four(out: &mut [u8], at: usize, v: usize)
    requires { at + 4 ≤ length out.old }
    ensures { out.new ≡ four_set out.old at v }
{
    out[at] = ((v >> 24) % 256) as u8;
    out[at + 1] = ((v >> 16) % 256) as u8;
    out[at + 2] = ((v >> 8) % 256) as u8;
    out[at + 3] = (v % 256) as u8;
}

// Appends v in k bits, which hold it.
pub fn put(out: &mut [u8], p: Pen, k: usize, v: usize) -> Pen
    requires { ReadyWide (length out.old) p k × (k ≤ 32) × (v < 2 ^ k) }
    ensures { PutWide out.old p out.new result (num_bits k v) }
{
    let n = p.n + k;
    let acc = (p.acc << k) + v;
    if n < 32 {
        return Pen { at: p.at, acc, n };
    }
    let left = n - 32;
    put_four(out, p.at, acc >> left);
    Pen {
        at: p.at + 4,
        acc: acc % (1usize << left),
        n: left,
    }
}

// Appends v ones.
fn put_ones(out: &mut [u8], p: Pen, v: usize) -> Pen
    requires { ReadyWide (length out.old) p v }
    ensures { PutWide out.old p out.new result (replicate v true) }
{
    let mut q = p;
    for i in 0..v / 32 {
        q = put(out, q, 32, 4294967295);
    }
    let left = v % 32;
    put(out, q, left, (1usize << left) - 1)
}

// Appends the GR number n, however many ones it has.
pub fn put_gr(out: &mut [u8], p: Pen, k: usize, n: usize) -> Pen
    requires { ReadyWide (length out.old) p (gr_len k n) × (k ≤ 10) }
    ensures { PutWide out.old p out.new result (gr_bits k n) }
{
    let q = put_ones(out, p, n >> k);
    put(out, q, k + 1, n % (1usize << k))
}

// Puts out the whole bytes of what waits.
pub fn close(out: &mut [u8], p: Pen) -> Pen
    requires { ReadyWide (length out.old) p 0 }
    ensures { Put out.old (empty_at p.at) out.new result (num_bits p.n p.acc) }
{
    let q = Pen {
        at: p.at,
        acc: 0,
        n: 0,
    };
    crate::put_bits(out, q, p.n, p.acc)
}
