//! Prints elements for people: a line each, with the offset, the type and the value.
#![tactic(auto)]

mod bits;
mod characters;
mod cut;
mod ending;
mod front;
mod identifier;
pub mod laws;
mod line;
mod line_octets;
mod name;
mod number;
mod octets;
mod outline;
mod pieces;
mod real;
mod remark;
mod room;
mod row;
mod shown;
mod spaced;
mod style;
mod text;
mod time;
mod value;

pub use bits::Bits;
pub use characters::is_hidden;
pub use identifier::Arcs;
pub use line::{write_field_line, write_line, write_line_of, write_named_line};
pub use number::Number;
pub use octets::Hex;
pub use outline::write_outline;
pub use pieces::{Characters, Piece, characters_of, next_piece};
pub use real::Real;
pub use remark::{BrokenRule, Remark};
pub use room::Room;
pub use style::{Limit, Style};
pub use text::{Quoted, Unquoted, is_printable_ascii};
pub use time::Moment;
pub use value::{Value, is_quoted_type, octets_or_none};
