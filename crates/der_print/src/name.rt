//! Names of object identifiers.
ghost use Rattle.std.specs.Prelude.{◌≡◌};
ghost use Rattle.der_print.specs.Names.{printed_of_name};

use crate::style::Limit;
use crate::text::{MOST, write_text};
use std::fmt;

/// A name, escaped as in quotes. If it is cut, three dots follow.
#[derive(Clone, Copy)]
pub(crate) struct Name<'a> {
    pub text: &'a str,
    pub limit: Limit,
}

impl fmt::Display for Name<'_> {
    ghost use Rattle.std.specs.Prelude.{Some};
    ghost use Rattle.der_print.specs.Names.{cut_name};

    ghost output = { λ x. Some (cut_name x.limit x.text.now) };

    fn fmt<W: fmt::Write>(&self, f: &mut fmt::Formatter<W>) -> fmt::Result {
        let most = printed_of_name(self.text.len(), self.limit);
        if write_text(f, self.text, most)? {
            return Ok(());
        }
        f.write_str("...")
    }
}

/// The number of characters to print of a name with at most `number` characters. If columns are limited, the whole line
/// is cut later.
fn printed_of_name(number: usize, limit: Limit) -> usize
    ensures { result ≡ printed_of_name limit number }
{
    match limit {
        Limit::Whole | Limit::Columns(_) => number,
        Limit::Front => MOST,
    }
}
