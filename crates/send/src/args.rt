// The options of the program `send`:  send [FILE | OLD NEW] [-m 1|3] [-q Q0 .. Q9] [-i INDEX] [-s SETTINGS] [-o OUT]
use app_text::arguments::{Kind, Usage};
use quants::Quants;
use settings::Settings;
use std::rt::Env;

// The arguments of the file, of the old picture where there are two, of the settings and of the result; the settings of the arguments; the frame's index.
#[derive(Clone, Copy)]
pub struct Options {
    pub file: Option<usize>,
    pub old: Option<usize>,
    pub kept: Option<usize>,
    pub out: Option<usize>,
    pub settings: Settings,
    pub index: u32,
}

fn index_of(rt: &impl Env, i: Option<usize>) -> Result<u32, Usage> {
    match i {
        Some(i) => app_settings::number_of(rt, i).ok_or(Usage),
        None => Ok(0),
    }
}

// The argument of the file, if any; of two, that of the new picture, and that of the old one.
fn files(rt: &impl Env, known: &[(u8, u8)]) -> Result<(Option<usize>, Option<usize>), Usage> {
    let file = app_text::arguments::find(rt, known, Kind::File)?;
    match (file.times, file.at) {
        (0 | 1, _) => Ok((file.at, None)),
        (2, Some(new)) => {
            let old = app_text::arguments::find_below(rt, known, Kind::File, new)?;
            Ok((file.at, old.at))
        }
        _ => Err(Usage),
    }
}

// The arguments as the usage says, each option at most once.
pub fn arguments(rt: &impl Env) -> Result<Options, Usage> {
    let known = [
        (b'm', 1),
        (b'q', 10),
        (b'i', 1),
        (b's', 1),
        (b't', 1),
        (b'o', 1),
    ];
    app_text::arguments::only_known(rt, &known)?;
    let (file, old) = files(rt, &known)?;
    let m = app_text::arguments::find_once(rt, &known, Kind::Option(b'm'))?;
    let q = app_text::arguments::find_once(rt, &known, Kind::Option(b'q'))?;
    let kept = app_text::arguments::find_once(rt, &known, Kind::Option(b's'))?;
    let out = app_text::arguments::find_once(rt, &known, Kind::Option(b'o'))?;
    let i = app_text::arguments::find_once(rt, &known, Kind::Option(b'i'))?;
    if let (Some(_), Some(_), _) | (Some(_), _, Some(_)) = (kept, q, m) {
        return Err(Usage);
    }
    let index = index_of(rt, i)?;
    let mode = app_settings::mode_of(rt, m)?;
    let luma = app_settings::quantisers(rt, q, app_settings::usual())?;
    let quants = Quants { luma, chroma: luma };
    Ok(Options {
        file,
        old,
        kept,
        out,
        settings: Settings { quants, mode },
        index,
    })
}
