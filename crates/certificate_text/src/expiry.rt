//! The time to or since the end of a validity.
ghost use Rattle.std.specs.Prelude.{◌≡◌, Some};
ghost use Rattle.std.specs.Fmt.{DisplaysOnOk};
ghost use Rattle.x509.specs.Certificates.{moment_of};
ghost use Rattle.certificate_text.specs.Expiry.{day_of, expiry_text, optional_expiry, second_of, year_from_march};

use der_base::time::ASN1DateTime;
use std::fmt;
use x509::Time;

/// The seconds of a day.
pub const DAY: u64 = 86400;

/// The number of the day 1970-01-01, by `day_of`.
pub const EPOCH: u64 = 719_469;

/// A number of days.
#[derive(Clone, Copy)]
struct Days(u128);

impl fmt::Display for Days {
    ghost use Rattle.std.specs.Prelude.{Some};
    ghost use Rattle.certificate_text.specs.Expiry.{days_text};

    ghost output = { λ x. Some (days_text x.0) };

    fn fmt<W: fmt::Write>(&self, f: &mut fmt::Formatter<W>) -> fmt::Result {
        if self.0 == 1 {
            return write!(f, "1 day");
        }
        write!(f, "{} days", self.0)
    }
}

/// Writes in how many whole days a time is, or how many days ago it was, if `now` is given, in seconds since 1970.
pub(crate) fn write_optional_expiry<W: fmt::Write>(
    f: &mut fmt::Formatter<W>,
    now: Option<u64>,
    end: Time,
) -> fmt::Result
    ensures { DisplaysOnOk W.Write.write_str_gives f.old result (Some (optional_expiry now (moment_of end))) f.new }
{
    match now {
        Some(now) => write_expiry(f, now, end.moment()),
        None => Ok(()),
    }
}

/// Writes in how many whole days a time is, or how many days ago it was.
fn write_expiry<W: fmt::Write>(
    f: &mut fmt::Formatter<W>,
    now: u64,
    end: ASN1DateTime,
) -> fmt::Result
    ensures { DisplaysOnOk W.Write.write_str_gives f.old result (Some (expiry_text now end)) f.new }
{
    let now = u128::from(now) + u128::from(EPOCH * DAY);
    let end = u128::from(second_of(end));
    if now <= end {
        let left = Days((end - now) / u128::from(DAY));
        return write!(f, "  Expires: in {left}\n");
    }
    let passed = Days((now - end) / u128::from(DAY));
    write!(f, "  Expired: {passed} ago\n")
}

/// The seconds from the start of day 0 to a time.
pub fn second_of(moment: ASN1DateTime) -> u64
    ensures { result ≡ second_of moment }
{
    let hours = day_of(moment) * 24 + u64::from(moment.hour);
    let minutes = hours * 60 + u64::from(moment.minute);
    minutes * 60 + u64::from(moment.second)
}

/// The number of a day in the Gregorian calendar. Years begin in March, so that a leap day is the last day.
fn day_of(moment: ASN1DateTime) -> u64
    ensures { result ≡ day_of moment.year moment.month moment.day }
{
    let year = year_from_march(moment);
    let leap_days = (year / 4 + year / 400).saturating_sub(year / 100);
    let days_before = (153 * ((u64::from(moment.month) + 9) % 12) + 2) / 5;
    year * 365 + leap_days + days_before + u64::from(moment.day)
}

/// The year that begins with the last March.
fn year_from_march(moment: ASN1DateTime) -> u64
    ensures { result ≡ year_from_march moment.year moment.month }
{
    let year = u64::from(moment.year);
    if moment.month <= 2 {
        return year.saturating_sub(1);
    }
    year
}
