// Which tiles of two pictures differ: document 02's request Seven, as functions on lists that are lent. `pic` judges a .pic file by its head and its length,
// `count` adds the differing words of a pixel row to its tiles' counts and finds the lines, `mark` makes the rows of a picture that shows them; `glasses`
// does the counting for two pictures that stand in memory as words.
#![tactic(auto)]

pub mod count;
pub mod glasses;
pub mod mark;
pub mod pic;
