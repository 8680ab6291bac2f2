// "Bands and the wavelet" of document 01, the way forth: one line and the row pass (`line`), the column pass and the three levels (`tile`).
#![tactic(auto)]

pub mod line;
pub mod tile;
