// The collector's calls for C (02, request One) under their C names: each is one call of the panel's own of that name (panel's collector.rt) and promises what that
// one does. Nothing here has a `requires`.
ghost use Rattle.std.specs.Prelude.{◌≡◌};
ghost use Rattle.collect.specs.Collect.{fresh};
ghost use Rattle.panel.specs.Collector.{CollectCall};

use collect::Collector;

// Takes bytes of the stream, up to the end of the first part that is whole. A part is the store's first `size` bytes, for the header call where `call` is 1
// and for the frame call where it is 2. The rest of the bytes, behind the first `taken`, is given again.
#[unsafe(no_mangle)]
pub extern "C" fn xurbalenz_collect(
    c: &mut Collector,
    bytes: &[u8],
    store: &mut [u8],
    call: &mut u8,
    size: &mut usize,
    taken: &mut usize,
) -> u8
    ensures { CollectCall c.old c.new bytes.now store.old store.new call.new size.new taken.new result }
{
    panel::collector::xurbalenz_collect(c, bytes, store, call, size, taken)
}

// Throws away what was gathered, and any refusal: the next byte is the first of a block.
#[unsafe(no_mangle)]
pub extern "C" fn xurbalenz_collect_reset(c: &mut Collector)
    ensures { c.new ≡ fresh }
{
    panel::collector::xurbalenz_collect_reset(c);
}

// The bytes of the collector's record. Its name carries the layout, as `xurbalenz_record_16` does.
#[unsafe(no_mangle)]
pub extern "C" fn xurbalenz_collector_32() -> u8
    ensures { result ≡ 32 }
{
    panel::collector::xurbalenz_collector_32()
}
