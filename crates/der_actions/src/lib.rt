//! The actions of the subcommands of `der` on the octets of an input. `show` is in der_cli.
#![tactic(auto)]

pub mod canon;
pub mod check;
pub mod diff;
mod fields;
pub mod get;
mod hint;
pub mod label;
mod listing;
pub mod name;
pub mod naming;
pub mod options;
pub mod origin;
mod pairing;
mod part;
pub mod place;
pub mod print;
pub mod report;
mod sequence;
mod source;
pub mod text;
mod trail;
