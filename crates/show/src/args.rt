// The options of the program `show`:  show [FILE] [-o OUT.bmp|OUT.png] [-p OUT.pic] [-c N] [-g 16|32]
use app_text::arguments::{Kind, Usage};
use std::rt::Env;

// The arguments of the file, of the picture and of the .pic file; how many bytes are read at a time; whether the glass has words of 32 bits, else of 16.
#[derive(Clone, Copy)]
pub struct Options {
    pub file: Option<usize>,
    pub out: Option<usize>,
    pub pic: Option<usize>,
    pub size: usize,
    pub wide: bool,
}

// The number from 1 to 65,536 that an argument is; what is given where there is no such argument.
fn number_of(rt: &impl Env, i: Option<usize>, none: usize) -> Result<usize, Usage> {
    let i = match i {
        Some(i) => i,
        None => return Ok(none),
    };
    let mut text = [0u8; 16];
    let n = app_text::arguments::argument(rt, i, &mut text);
    let f = app_pictures::ppm::number(&text, 0);
    if f.at == n && 0 < f.value && f.value <= 65536 {
        return Ok(f.value);
    }
    Err(Usage)
}

// The arguments as the usage says, each option at most once.
pub fn arguments(rt: &impl Env) -> Result<Options, Usage> {
    let known = [(b'o', 1), (b'p', 1), (b'c', 1), (b'g', 1)];
    app_text::arguments::only_known(rt, &known)?;
    let file = app_text::arguments::find_once(rt, &known, Kind::File)?;
    let out = app_text::arguments::find_once(rt, &known, Kind::Option(b'o'))?;
    let pic = app_text::arguments::find_once(rt, &known, Kind::Option(b'p'))?;
    let cut = app_text::arguments::find_once(rt, &known, Kind::Option(b'c'))?;
    let glass = app_text::arguments::find_once(rt, &known, Kind::Option(b'g'))?;
    let size = number_of(rt, cut, 65536)?;
    let wide = match number_of(rt, glass, 16)? {
        16 => false,
        32 => true,
        _ => return Err(Usage),
    };
    Ok(Options {
        file,
        out,
        pic,
        size,
        wide,
    })
}
