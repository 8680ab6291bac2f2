// Pictures of words (`word`) as files: BMP (`bmp`), PNG (`png`), PPM (`ppm`), and a picture written to a file or to standard output (`out`). No customer links it.
#![tactic(auto)]

pub mod bmp;
pub mod out;
pub mod png;
pub mod ppm;
pub mod word;
