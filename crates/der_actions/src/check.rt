//! The check of an input.
ghost use Rattle.std.specs.Prelude.{◌≡◌, ◌↔◌, IfOk, IsTrue, true};
ghost use Rattle.der_actions.specs.Outputs.{IsChecked};

use crate::naming::is_as_asked;
use crate::options::Options;
use crate::origin::Origin;
use crate::report::{are_some_elements, report_check};
use std::io;
use std::io::Write;

/// Checks whether octets are one or more valid elements and nothing else, and have the type of the options, if there is
/// one. If not, reports where and why on `out`. Returns whether they are.
pub fn check<W: Write>(
    options: &Options<'_>,
    origin: Origin<'_>,
    octets: &[u8],
    out: &mut W,
) -> io::Result<bool>
    ensures checked { IfOk result (λ ok. IsTrue ok ↔ IsChecked options.now octets.now) }
    ensures none { IfOk result (λ ok. IsTrue ok → out.new ≡ out.old) }
    ensures quiet { options.now.is_quiet ≡ true → out.new ≡ out.old }
{
    if is_checked(options, octets) {
        return Ok(true);
    }
    if !options.is_quiet {
        report_check(options, origin, octets, out)?;
    }
    Ok(false)
}

/// Whether octets are one or more valid elements and nothing else, and have the type of the options, if there is one.
fn is_checked(options: &Options<'_>, octets: &[u8]) -> bool
    ensures { IsTrue result ↔ IsChecked options.now octets.now }
{
    are_some_elements(octets, options.rules) && is_as_asked(options.naming, options.rules, octets)
}
