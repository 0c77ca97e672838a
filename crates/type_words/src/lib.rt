//! What octets of a type of ASN.1 are in words: a line `Label: value` for each element that the type has words for.
#![tactic(auto)]

mod filter;
mod item;
mod joined;
pub mod laws;
mod octets;
mod places;
mod text;
mod value;
mod walk;

pub use item::{Item, Label, Sink};
pub use octets::{Count, Octets, Shown, digits, is_shown, quoted};
pub use text::{TextLines, count_in, value_text};
pub use value::{Name, name_among};
pub use walk::{words_text, write_words};
