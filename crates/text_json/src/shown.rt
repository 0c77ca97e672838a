//! Summaries of octets as lines of JSON. docs/show-json.schema.json describes their members.
mod form;
mod items;
mod line;
mod object;
mod typed;
mod value;
mod words;

pub use object::{Source, refused_json, shown_json, typed_json};
