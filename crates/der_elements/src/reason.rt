//! The reason why a walk stops, as text.
ghost use Rattle.std.specs.Prelude.{◌≡◌};

use crate::cause::{Cause, header_rule_of, octets_noun};
use std::fmt;

/// Why a walk stops before the end of its input, with what else is known there.
#[derive(Clone, Copy)]
pub struct Reason<'a> {
    pub cause: Cause,
    /// The octets from the start of the rejected element.
    pub octets: &'a [u8],
    /// How many octets follow the last element of the input if no element begins there, else 0.
    pub after_end: usize,
    /// How many octets the outermost open element lacks. 0 if it lacks none.
    pub beyond: usize,
}

impl<'a> Reason<'a> {
    /// Why the element at the start of these octets is rejected.
    pub fn of(cause: Cause, octets: &'a [u8]) -> Reason<'a>
        ensures cause { result.cause ≡ cause }
        ensures octets { result.octets.now ≡ octets.now }
        ensures more { (result.after_end ≡ 0) × (result.beyond ≡ 0) }
    {
        Reason {
            cause,
            octets,
            after_end: 0,
            beyond: 0,
        }
    }
}

/// A text such as `a number has no octets (X.690 8.3.1)` or `1 octet after the end`.
impl fmt::Display for Reason<'_> {
    fn fmt<W: fmt::Write>(&self, f: &mut fmt::Formatter<W>) -> fmt::Result {
        let number = self.after_end;
        if number > 0 {
            let noun = octets_noun(number);
            return write!(f, "{number} {noun} after the end");
        }
        match self.cause {
            Cause::Cut(_) => write!(f, "{}", self.cause),
            Cause::Header(e) => {
                write!(f, "{}", header_rule_of(e, self.octets))?;
                write_beyond(f, self.beyond)
            }
            cause => {
                write!(f, "{cause}")?;
                write_beyond(f, self.beyond)
            }
        }
    }
}

/// Writes how many octets the outermost element lacks.
fn write_beyond<W: fmt::Write>(f: &mut fmt::Formatter<W>, number: usize) -> fmt::Result {
    if number == 0 {
        return Ok(());
    }
    let noun = octets_noun(number);
    write!(
        f,
        "; the outermost element claims {number} {noun} more than there are"
    )
}
