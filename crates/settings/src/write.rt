// The writer: what it refuses, then the bytes of specs/Settings. The output is untouched on a refusal, and so are the bytes past the length.
ghost use Rattle.std.specs.Prelude.{◌≡◌, [], ◌∷◌, ◌++◌, ◌≤◌, length};
ghost use Rattle.wire.specs.Le.{patch, written};
ghost use Rattle.wire.specs.Refusal.{number_of};
ghost use Rattle.wire.specs.Wrote.{Wrote};
ghost use Rattle.bands.specs.Bands.{QuantGood};
ghost use Rattle.settings.specs.Settings.{version_record, one_record, two_record, size_of, settings_of, write_fault};

use crate::Settings;
use crate::read::settings_fault;
use bands::Quant;
use wire::Refusal;

// The version's record, and the kind of the one behind it, which is a byte of the store.
fn put_front(out: &mut [u8], version: usize, kind: u8)
    requires { 4 ≤ length out.old }
    ensures { out.new ≡ patch out.old 0 (version_record version ++ (kind ∷ [])) }
{
    wire::put8_at(out, 0, 0);
    wire::put16_at(out, 1, version);
    wire::put8_at(out, 3, kind);
}

// One set for both. Two short functions: what they have in common is `put_front`.
fn put_one(out: &mut [u8], q: Quant, mode: u8)
    requires { (10 ≤ length out.old) × QuantGood q.v }
    ensures { out.new ≡ written (version_record 1 ++ one_record q.v mode) out.old }
{
    put_front(out, 1, 1);
    quants::put_set(out, 4, q);
    wire::put8_at(out, 9, mode);
}

fn put_two(out: &mut [u8], luma: Quant, chroma: Quant, mode: u8)
    requires { (15 ≤ length out.old) × QuantGood luma.v × QuantGood chroma.v }
    ensures { out.new ≡ written (version_record 2 ++ two_record luma.v chroma.v mode) out.old }
{
    put_front(out, 2, 2);
    quants::put_set(out, 4, luma);
    quants::put_set(out, 9, chroma);
    wire::put8_at(out, 14, mode);
}

#[tactic(auto, using(whole::specs::laws::Row::rows), unfolding(crate::specs::Settings::size_of))]
fn size_of(s: Settings) -> usize
    ensures { result ≡ size_of s }
{
    if quants::is_same(s.quants) { 10 } else { 15 }
}

fn write_fault(s: Settings, room: usize) -> Result<(), Refusal>
    ensures { number_of result ≡ write_fault s room }
{
    settings_fault(s)?;
    if room < size_of(s) {
        return Err(Refusal::Room);
    }
    Ok(())
}

// Writes the records of settings.
pub fn write_settings(s: Settings, out: &mut [u8]) -> Result<usize, Refusal>
    ensures { Wrote (write_fault s (length out.old)) (settings_of s) out.old out.new result }
{
    write_fault(s, out.len())?;
    if quants::is_same(s.quants) {
        put_one(out, s.quants.luma, s.mode);
        return Ok(10);
    }
    put_two(out, s.quants.luma, s.quants.chroma, s.mode);
    Ok(15)
}
