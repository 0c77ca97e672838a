//! `der` shows what is in files of ASN.1 in BER or DER: `der tree` as lines for people, `der json` as JSON.
//! `der check` tells which files aren't DER, and `der canon` writes a file as DER.
#![tactic(auto)]

use der_cli::program;
use std::io::IsTerminal;
use std::process::ExitCode;

fn main(rt: HostRuntime) -> ExitCode {
    let out = rt.stdout();
    let is_terminal = out.is_terminal();
    program(&rt, rt.stdin(), out, rt.stderr(), is_terminal)
}
