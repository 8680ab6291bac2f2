// What C links: the panel's calls for C (`panel`) under the same names, each the call of that name and no more, so that the archive has these symbols and no other. A crate
// that others stand on gives no archive, and one that gives an archive has nobody stand on it: so the calls, their definitions and their theorems are `panel`'s.
#![tactic(auto)]

pub mod cabinet;
pub mod capabilities;
pub mod collector;
pub mod differ;
pub mod edge;
pub mod filter;
pub mod short;
