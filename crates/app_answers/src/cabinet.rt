// The calls of settings (02, request Five) for a recording, each with its line: the number, the settings or the length, a hash of the output, which holds A5
// before.
ghost use Rattle.std.specs.Prelude.{length};
ghost use Rattle.settings.specs.Settings.{settings_of, write_fault};
ghost use Rattle.app_answers.specs.Answers.{WriterSaid};

use settings::Settings;

// One call of the reader.
pub fn read_settings_call(newest: u8, bytes: &[u8])
    ensures { Unit }
{
    let r = settings::read::read_settings(newest, bytes);
    crate::lines::say_settings(wire::number_of(r), settings::read::given(r));
}

// One call of the writer; the bytes that it wrote.
pub fn write_settings_call(s: Settings, out: &mut [u8]) -> usize
    ensures { WriterSaid (write_fault s (length out.old)) (settings_of s) out.old out.new result }
{
    out.fill(0xA5);
    let w = settings::write::write_settings(s, out);
    let n = wire::count_of(w);
    crate::lines::say_hash(wire::number_of(w), n, app_recording::lent::hash(out));
    n
}
