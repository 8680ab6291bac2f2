// "The component code" of document 01: one element of the code read and judged (`element`, and of a word `word`), and the component reader over it (`read`).
#![tactic(auto)]

pub mod element;
pub mod read;
pub mod word;
