//! `derdump ber` and `derdump der` print the elements of their standard input, one a line. `derdump canon`
//! writes the elements that BER reads with DER's lengths.
//!
//! The stored run ends at an element that is rejected, with status 1.
#![tactic(auto)]

mod arguments;
mod command;
mod fault;
mod input;
mod rules;
mod run;
mod sink;
mod source;
mod streams;

use arguments::only_argument;
use std::process::ExitCode;
use streams::program;

fn main(rt: HostRuntime) -> ExitCode {
    program(
        rt.alloc(),
        only_argument(&rt),
        rt.stdin(),
        rt.stdout(),
        rt.stderr(),
    )
}
