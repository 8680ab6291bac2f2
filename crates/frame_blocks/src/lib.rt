// "Blocks, little-endian" of document 01: the blocks of a frame (`block`) and the fields of a tile (`tile`), read and judged.
#![tactic(auto)]

pub mod block;
pub mod tile;
