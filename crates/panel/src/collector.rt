// The collector's two calls for C (02, request One): bytes as a network card gives them go into a lent store, and header blocks and frames come out whole.
// The answer is 01's number; to which call a part goes, its length and how many bytes were taken are stored behind references on every answer. Each is one
// call of `collect` and promises what that one does (specs/Collector). Nothing here has a `requires`.
ghost use Rattle.std.specs.Prelude.{◌≡◌};
ghost use Rattle.collect.specs.Collect.{fresh};
ghost use Rattle.panel.specs.Collector.{collected_number, collected_call, collected_size, CollectCall};

use collect::{Collected, Collector};
use wire::Numbered;

// The number of an answer, as C is told it: 0, or the refusal's.
fn collected_number(a: Collected) -> u8
    ensures { result ≡ collected_number a }
{
    match a {
        Collected::More => 0,
        Collected::Header(_) => 0,
        Collected::Frame(_) => 0,
        Collected::Refused(refusal) => refusal.number(),
    }
}

// To which call a part goes: 1 to the header call, 2 to the frame call, 0 where none is handed on.
fn collected_call(a: Collected) -> u8
    ensures { result ≡ collected_call a }
{
    match a {
        Collected::More => 0,
        Collected::Header(_) => 1,
        Collected::Frame(_) => 2,
        Collected::Refused(_) => 0,
    }
}

// How many of the store's first bytes the part has, 0 where none is handed on.
fn collected_size(a: Collected) -> usize
    ensures { result ≡ collected_size a }
{
    match a {
        Collected::More => 0,
        Collected::Header(size) => size,
        Collected::Frame(size) => size,
        Collected::Refused(_) => 0,
    }
}

// Takes bytes of the stream, up to the end of the first part that is whole. A part is the store's first `size` bytes, for the header call where `call` is 1
// and for the frame call where it is 2. The rest of the bytes, behind the first `taken`, is given again.
#[unsafe(no_mangle)]
pub extern "C" fn xurbalenz_collect(
    c: &mut Collector,
    bytes: &[u8],
    store: &mut [u8],
    call: &mut u8,
    size: &mut usize,
    taken: &mut usize,
) -> u8
    ensures { CollectCall c.old c.new bytes.now store.old store.new call.new size.new taken.new result }
{
    let t = collect::collect(*c, bytes, store);
    *call = collected_call(t.answer);
    *size = collected_size(t.answer);
    *taken = t.taken;
    *c = t.collector;
    collected_number(t.answer)
}

// Throws away what was gathered, and any refusal: the next byte is the first of a block.
#[unsafe(no_mangle)]
pub extern "C" fn xurbalenz_collect_reset(c: &mut Collector)
    ensures { c.new ≡ fresh }
{
    *c = collect::reset();
}

// The bytes of the collector's record. Its name carries the layout, as `xurbalenz_record_16` does.
#[unsafe(no_mangle)]
pub extern "C" fn xurbalenz_collector_32() -> u8
    ensures { result ≡ 32 }
{
    32
}
