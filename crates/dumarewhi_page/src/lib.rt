//! The calls of the page: the elements of an input as rows of numbers, with texts and names, its form in DER, and its
//! summary. A slice is a pointer and a length there. `content` has what the calls write. Nothing allocates.
#![tactic(auto)]

pub mod canon;
pub mod content;
pub mod fields;
pub mod input;
pub mod lists;
pub mod shown;
pub mod texts;
