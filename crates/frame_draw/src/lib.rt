// "A picture word is changed exactly if .." of document 01: its rectangles against a tile's columns (`clip`), what they hold of a row of pixels
// (`row`), the tiles of a checked frame (`tiles`), and the picture, of words of either size (`paint`).
#![tactic(auto)]

pub mod clip;
pub mod paint;
pub mod row;
pub mod tiles;
