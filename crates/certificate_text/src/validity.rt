//! When a certificate or a CRL is valid.
ghost use Rattle.std.specs.Prelude.{Some};
ghost use Rattle.std.specs.Fmt.{DisplaysOnOk};
ghost use Rattle.x509.specs.Certificates.{moment_of};
ghost use Rattle.extension_text.specs.Names.Values.{time_line};
ghost use Rattle.certificate_text.specs.Values.{validity_text};

use crate::expiry::write_optional_expiry;
use extension_text::names::lines::write_moment;
use std::fmt;
use x509::{Time, Validity};

/// Writes a line with a time. The year of a `Time` is complete.
pub(crate) fn write_time<W: fmt::Write>(
    f: &mut fmt::Formatter<W>,
    label: &str,
    time: Time,
) -> fmt::Result
    ensures { DisplaysOnOk W.Write.write_str_gives f.old result
        (Some (time_line label.now (moment_of time))) f.new }
{
    write_moment(f, label, time.moment())
}

/// Writes the start and the end of a validity, and the days from now to the end.
pub(crate) fn write_validity<W: fmt::Write>(
    f: &mut fmt::Formatter<W>,
    validity: Validity,
    now: Option<u64>,
) -> fmt::Result
    ensures { DisplaysOnOk W.Write.write_str_gives f.old result (Some (validity_text now validity)) f.new }
{
    write_time(f, "  Not before: ", validity.not_before)?;
    write_time(f, "  Not after: ", validity.not_after)?;
    write_optional_expiry(f, now, validity.not_after)
}
