// The calls of capabilities and acknowledgements (02, request Twelve) for a recording, each with its line: 01's number, the fields or the length, a hash of
// the output, which holds A5 before.
ghost use Rattle.std.specs.Prelude.{◌≡◌, length};
ghost use Rattle.caps.specs.Caps.{caps_of, caps_fault};
ghost use Rattle.caps.specs.AckCap.{ack_cap_of, ack_cap_fault};
ghost use Rattle.caps.specs.Ack.{ack_of, ack_fault};
ghost use Rattle.app_answers.specs.Answers.{WriterMade};

use caps::{Ack, Caps};

// One call of the container's reader.
pub fn read_caps_call(message: &[u8])
    ensures { Unit }
{
    let r = caps::read::read_caps(message);
    crate::lines::say_caps(wire::number_of(r), caps::read::caps_fields(r));
}

// One call of its writer.
pub fn write_caps_call(c: Caps, out: &mut [u8])
    ensures { WriterMade (caps_fault c (length out.old)) (caps_of c) out.old out.new }
{
    out.fill(0xA5);
    let w = caps::write::write_caps(c, out);
    crate::lines::say_hash(
        wire::number_of(w),
        wire::count_of(w),
        app_recording::lent::hash(out),
    );
}

// One call of the reader of the frame acknowledge capability.
pub fn read_ack_cap_call(message: &[u8])
    ensures { Unit }
{
    let r = caps::read::read_ack_cap(message);
    crate::lines::say_ack_cap(wire::number_of(r), caps::read::ack_cap_count(r));
}

// One call of its writer.
pub fn write_ack_cap_call(count: u32, out: &mut [u8])
    ensures { WriterMade (ack_cap_fault (length out.old)) (ack_cap_of count) out.old out.new }
{
    out.fill(0xA5);
    let w = caps::write::write_ack_cap(count, out);
    crate::lines::say_hash(
        wire::number_of(w),
        wire::count_of(w),
        app_recording::lent::hash(out),
    );
}

// One call of the reader of the frame acknowledge message.
pub fn read_ack_call(message: &[u8])
    ensures { Unit }
{
    let r = caps::read::read_ack(message);
    crate::lines::say_ack(wire::number_of(r), caps::read::ack_fields(r));
}

// One call of its writer.
pub fn write_ack_call(a: Ack, out: &mut [u8])
    ensures { WriterMade (ack_fault a.version (length out.old)) (ack_of a) out.old out.new }
{
    out.fill(0xA5);
    let w = caps::write::write_ack(a, out);
    crate::lines::say_hash(
        wire::number_of(w),
        wire::count_of(w),
        app_recording::lent::hash(out),
    );
}
