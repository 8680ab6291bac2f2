// The reader: record by record, each in full before the next (specs/Settings). It lends no memory and keeps no state.
ghost use Rattle.std.specs.Prelude.{◌≡◌, ◌+◌, ◌≤◌, length, drop};
ghost use Rattle.wire.specs.Refusal.{number_of};
ghost use Rattle.settings.specs.Settings.{no_settings, body_of, known, placed, front_fault, takes, settings_in};
ghost use Rattle.settings.specs.Settings.{settings_fault, bytes_fault, record_fault, after, ended, read_settings, store_number, given};

use crate::{Settings, StoreRefusal};
use bands::Quant;
use quants::Quants;
use wire::Refusal;

// What the records so far have said: the version, 0 before it is read, which is no version (`known` and `placed` of specs/Settings read it as a number); and
// the last setting.
#[derive(Clone, Copy)]
struct State {
    version: usize,
    last: Option<Settings>,
}

fn no_settings() -> Settings
    ensures { result ≡ no_settings }
{
    let none = Quant { v: [0; 10] };
    Settings {
        quants: Quants {
            luma: none,
            chroma: none,
        },
        mode: 0,
    }
}

// The settings of what reading came to, all 0 where it is refused.
pub fn given(answer: Result<Settings, StoreRefusal>) -> Settings
    ensures { result ≡ given answer }
{
    answer.unwrap_or(no_settings())
}

// How many bytes stand behind a kind.
#[tactic(auto, using(whole::specs::laws::Row::rows), unfolding(crate::specs::Settings::body_of))]
fn body_of(kind: usize) -> usize
    ensures { (result ≡ body_of kind) × (result ≤ 11) }
{
    match kind {
        0 => 2,
        1 => 6,
        _ => 11,
    }
}

// Is the kind one that the version allows? Until a version is read, all three are.
#[tactic(auto, using(whole::specs::laws::Row::rows), unfolding(crate::specs::Settings::known))]
fn is_known(version: usize, kind: usize) -> bool
    ensures { result ≡ known version kind }
{
    if version == 1 {
        return kind <= 1;
    }
    kind <= 2
}

// The version is the first record, and no other is.
#[tactic(auto, using(whole::specs::laws::Row::rows), unfolding(crate::specs::Settings::placed))]
fn is_placed(version: usize, kind: usize) -> bool
    ensures { result ≡ placed version kind }
{
    if version == 0 {
        return kind == 0;
    }
    if kind == 0 {
        return false;
    }
    true
}

// Kind (3), place (12), presence (1) of a record with so many bytes behind its kind.
#[tactic(auto, using(whole::specs::laws::Row::rows), unfolding(crate::specs::Settings::front_fault))]
fn front_fault(version: usize, kind: usize, left: usize) -> Result<(), Refusal>
    ensures { number_of result ≡ front_fault version kind left }
{
    if !is_known(version, kind) {
        return Err(Refusal::Kind);
    }
    if !is_placed(version, kind) {
        return Err(Refusal::Order);
    }
    if left < body_of(kind) {
        return Err(Refusal::Cut);
    }
    Ok(())
}

// Does a reader whose newest version is this take that one?
#[tactic(auto, using(whole::specs::laws::Row::rows), unfolding(crate::specs::Settings::takes))]
fn is_taken(newest: usize, version: usize) -> bool
    ensures { result ≡ takes newest version }
{
    if version == 1 {
        return 1 <= newest;
    }
    if version == 2 {
        return 2 <= newest;
    }
    false
}

// The settings of a body that is there: kind 1 has one set for both.
fn settings_at(m: &[u8], at: usize, kind: usize) -> Settings
    requires { (kind ≡ 0 → ⊥) × (at + body_of kind ≤ length m.now) }
    ensures { result ≡ settings_in kind (drop at m.now) }
{
    let luma = bands::quant_at(m, at);
    if kind == 1 {
        return Settings {
            quants: Quants { luma, chroma: luma },
            mode: m[at + 5],
        };
    }
    let chroma = bands::quant_at(m, at + 5);
    Settings {
        quants: Quants { luma, chroma },
        mode: m[at + 10],
    }
}

// Quantisers (7), luma's then chroma's, then the mode (5).
#[tactic(auto, using(whole::specs::laws::Row::rows), unfolding(crate::specs::Settings::settings_fault))]
pub fn settings_fault(s: Settings) -> Result<(), Refusal>
    ensures { number_of result ≡ settings_fault s }
{
    if !bands::is_good(s.quants.luma) {
        return Err(Refusal::Quant);
    }
    if !bands::is_good(s.quants.chroma) {
        return Err(Refusal::Quant);
    }
    if !wire::is_mode(s.mode as usize) {
        return Err(Refusal::Field);
    }
    Ok(())
}

// The bytes of a body that is there, as they stand.
fn bytes_fault(newest: usize, m: &[u8], at: usize, kind: usize) -> Result<(), StoreRefusal>
    requires { at + body_of kind ≤ length m.now }
    ensures { store_number result ≡ bytes_fault newest kind (drop at m.now) }
{
    if kind == 0 {
        if is_taken(newest, wire::le16_at(m, at)) {
            return Ok(());
        }
        return Err(StoreRefusal::Version);
    }
    settings_fault(settings_at(m, at, kind))?;
    Ok(())
}

// The first fault of a record whose body would stand at a place.
fn record_fault(
    newest: usize,
    version: usize,
    m: &[u8],
    at: usize,
    kind: usize,
) -> Result<(), StoreRefusal>
    requires { at ≤ length m.now }
    ensures { store_number result ≡ record_fault newest version kind (drop at m.now) }
{
    front_fault(version, kind, m.len() - at)?;
    bytes_fault(newest, m, at, kind)
}

// What a good record makes of what was said before it.
fn after(s: State, m: &[u8], at: usize, kind: usize) -> State
    requires { at + body_of kind ≤ length m.now }
    ensures { result ≡ after s kind (drop at m.now) }
{
    if kind == 0 {
        return State {
            version: wire::le16_at(m, at),
            last: s.last,
        };
    }
    let now = settings_at(m, at, kind);
    State {
        version: s.version,
        last: Some(now),
    }
}

// Nothing read is 1, the version alone 15; else the last setting counts.
fn ended(s: State) -> Result<Settings, StoreRefusal>
    ensures { result ≡ ended s }
{
    if s.version == 0 {
        return Err(StoreRefusal::Common(Refusal::Cut));
    }
    s.last.ok_or(StoreRefusal::Alone)
}

// Reads the records of a store, for a reader whose newest version is given: 1 takes version 1, 2 and above take 1 and 2, 0 takes none.
pub fn read_settings(newest: u8, m: &[u8]) -> Result<Settings, StoreRefusal>
    ensures { result ≡ read_settings newest m.now }
{
    let mut s = State {
        version: 0,
        last: None,
    };
    let mut at = 0;
    // A step is as long as its record, so there is no range.
    while at < m.len() {
        let kind = wire::byte_at(m, at);
        record_fault(newest as usize, s.version, m, at + 1, kind)?;
        s = after(s, m, at + 1, kind);
        at = at + 1 + body_of(kind);
    }
    ended(s)
}
