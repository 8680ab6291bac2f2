// "The component code" of document 01, written: items chosen and their bits put (`put`), and the component writer (`call`).
#![tactic(auto)]

pub mod call;
pub mod put;
