//! The style of lines, by the terminal.
ghost use Rattle.std.specs.Prelude.{◌≡◌, ◌↔◌, IfErr, IfOk, IsTrue, codes, false, nat_lt, string_bytes, string_len};

use der_print::{Limit, Style};
use std::env;
use std::env::{Env, VarError};

/// The width of a terminal that doesn't tell it.
const COLUMNS: usize = 80;

/// The style of lines. On a terminal they are as wide as `COLUMNS` says, or 80 columns. There they are in colours,
/// unless `NO_COLOR` is set or `TERM` is `dumb`.
pub(crate) fn style_of<R: Env + AllocGlobal>(rt: &R, is_terminal: bool) -> Style
    ensures limit { is_terminal ≡ false → result.limit ≡ Limit.Front }
    ensures colours { is_terminal ≡ false → result.colours ≡ false }
{
    if !is_terminal {
        return Style {
            limit: Limit::Front,
            colours: false,
        };
    }
    Style {
        limit: Limit::Columns(columns(rt).unwrap_or(COLUMNS)),
        colours: !is_set(env::var(rt, "NO_COLOR")) && !is_dumb(env::var(rt, "TERM")),
    }
}

/// Whether the environment has a variable that isn't empty.
fn is_set(variable: Result<String, VarError>) -> bool
    ensures set { IfOk variable (λ text. result ≡ nat_lt 0 (string_len text)) }
    ensures none { IfErr variable (λ _. result ≡ false) }
{
    match variable {
        Ok(text) => !text.is_empty(),
        Err(_) => false,
    }
}

/// Whether a terminal with this name has no colours.
fn is_dumb(name: Result<String, VarError>) -> bool
    ensures dumb { IfOk name (λ text. IsTrue result ↔ (string_bytes text ≡ codes "dumb")) }
    ensures none { IfErr name (λ _. result ≡ false) }
{
    match name {
        Ok(name) => name.as_str() == "dumb",
        Err(_) => false,
    }
}

/// The width of the terminal, if the environment has it as a number above 0. The toolchain has no call for it.
fn columns<R: Env + AllocGlobal>(rt: &R) -> Option<usize> {
    let text = env::var(rt, "COLUMNS").ok()?;
    match text.as_str().trim().parse::<usize>() {
        Ok(columns) if columns > 0 => Some(columns),
        _ => None,
    }
}
