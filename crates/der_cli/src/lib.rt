//! The program `der`, over any reader and writers.
#![tactic(auto)]

mod arguments;
mod command;
mod decode;
mod folders;
mod inputs;
mod modules;
mod own_names;
mod present;
pub mod run;
mod show;
mod shown_object;
mod status;
mod streams;
mod subcommands;
mod summary;
mod terminal;

pub use streams::program;
