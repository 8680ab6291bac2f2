// Settings kept by the cabinet: document 02, request Five. The writer's quantisers and mode, read from records and written as records.
// specs/Settings has the records and their order of faults, specs/Request 02's sentences over the calls.
#![tactic(auto)]

ghost use Rattle.std.specs.Prelude.{◌≡◌};
ghost use Rattle.settings.specs.Settings.{why_number};
ghost use Rattle.settings.specs.declared.StoreRefusal.TheVariants.{Common};

pub mod read;
pub mod write;

use quants::Quants;
use wire::{Numbered, Refusal};

// What is kept: luma's and chroma's quantisers, and the mode, 1 (RLGR1) or 4 (RLGR3).
#[derive(Clone, Copy)]
pub struct Settings {
    pub quants: Quants,
    pub mode: u8,
}

// Why a store is not read: for one of 01's reasons, or for one of the two that request Five adds.
#[derive(Clone, Copy, PartialEq, Eq, Debug)]
pub enum StoreRefusal {
    Common(Refusal),
    Version,
    Alone,
}

impl Numbered for StoreRefusal {
    ghost value = { why_number };

    // 01's, 14 for a version that the reader does not take, 15 for a version alone.
    fn number(self) -> u8 {
        match self {
            StoreRefusal::Common(refusal) => refusal.number(),
            StoreRefusal::Version => 14,
            StoreRefusal::Alone => 15,
        }
    }
}

impl From<Refusal> for StoreRefusal {
    ghost from_gives = { λ refusal why. why ≡ Common refusal };

    fn from(refusal: Refusal) -> StoreRefusal {
        StoreRefusal::Common(refusal)
    }
}
