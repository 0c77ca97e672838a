//! The exit statuses of the program.
ghost use Rattle.std.specs.Prelude.{◌≡◌, ◌≤◌};
ghost use Rattle.der_cli.specs.Statuses.{status_of, status_of_comparison};

use der_actions::diff::Difference;

/// All inputs were accepted, a text was written, or two files have the same elements.
pub(crate) const DONE: u8 = 0;

/// An input was rejected, or can't be read or written.
pub(crate) const REFUSED: u8 = 1;

/// Two files differ.
const DIFFERENT: u8 = 1;

/// The command line is wrong.
pub(crate) const USAGE: u8 = 2;

/// A file to be compared can't be read or decoded.
pub(crate) const TROUBLE: u8 = 2;

/// The output was closed by its reader: 128 plus the number of the signal SIGPIPE, as for a program that it ends.
pub(crate) const CLOSED_PIPE: u8 = 141;

/// The exit status after inputs.
pub(crate) fn status_of(are_read: bool) -> u8
    ensures status { result ≡ status_of are_read }
    ensures bounded { result ≤ 1 }
{
    if are_read { DONE } else { REFUSED }
}

/// The exit status after a comparison.
pub(crate) fn status_of_comparison(found: Option<Difference>) -> u8
    ensures status { result ≡ status_of_comparison found }
    ensures bounded { result ≤ 2 }
{
    match found {
        Some(Difference::Same) => DONE,
        Some(Difference::Different) => DIFFERENT,
        None => TROUBLE,
    }
}
