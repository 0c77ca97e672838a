//! The values of the C library: elements, values and errors as C structs or numbers. `dumarewhi_c` exports the calls.
#![tactic(auto)]

pub mod any;
pub mod cursor;
pub mod element;
pub mod error_text;
pub mod errors;
pub mod fault;
pub mod laws;
pub mod moment;
pub mod next;
pub mod octets;
pub mod outcome;
pub mod parts;
pub mod pem;
pub mod readers;
pub mod room;
pub mod state;
pub mod tested;
pub mod text;
pub mod time;
pub mod values;
