// Send only what changed: document 02's request Eleven, its checker and its planner, as functions on lists that are lent. `same` compares two pictures tile by
// tile, `check` judges a list of tile numbers that somebody proposes, `make` makes such a list. The calls for C stand in `panel`.
#![tactic(auto)]

pub mod check;
pub mod make;
pub mod same;
