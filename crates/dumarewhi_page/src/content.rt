//! What the page shows of an input: rows of numbers, with texts and names. The modules beside this one export the
//! calls. Nothing allocates.
pub mod fault;
pub mod fields;
pub mod input;
pub mod line;
pub mod lists;
pub mod path;
pub mod room;
pub mod row;
pub mod rules;
pub mod shown;
pub mod texts;
