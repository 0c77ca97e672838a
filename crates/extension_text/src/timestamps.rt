//! Signed certificate timestamps (RFC 6962 3.2, 3.3).
ghost use Rattle.std.specs.Prelude.{◌≡◌, Some, length};
ghost use Rattle.std.specs.Fmt.{DisplaysOnOk};
ghost use Rattle.der_print.specs.Writes.{WritesOne};
ghost use Rattle.extension_text.specs.Timestamps.{AreTimestamps, milliseconds_text, timestamp_text};

use crate::names::lines::write_octets;
use der_extensions::SignedCertificateTimestamps;
use std::fmt;

/// The number of version 1.
const VERSION_1: u8 = 0;

/// The offset of the time, after the version and the log's key digest.
const TIME: usize = 33;

/// The offset after the time.
const TIME_END: usize = 41;

/// Writes signed certificate timestamps.
pub(crate) fn write_timestamps<W: fmt::Write>(
    f: &mut fmt::Formatter<W>,
    timestamps: &SignedCertificateTimestamps<'_>,
) -> fmt::Result
    ensures { WritesOne W.Write.write_str_gives f.old result (AreTimestamps timestamps.now.octets.now) f.new }
{
    for timestamp in timestamps.iter() {
        write_timestamp(f, timestamp)?;
    }
    Ok(())
}

/// Writes the log and the time of a timestamp of version 1, or the octets of another version.
fn write_timestamp<W: fmt::Write>(f: &mut fmt::Formatter<W>, octets: &[u8]) -> fmt::Result
    ensures { DisplaysOnOk W.Write.write_str_gives f.old result (Some (timestamp_text octets.now)) f.new }
{
    if octets.len() < TIME_END || octets[0] != VERSION_1 {
        return write_octets(f, "      Timestamp: ", octets);
    }
    write_octets(f, "      Log: ", &octets[1..TIME])?;
    write_milliseconds(f, &octets[TIME..TIME_END])
}

/// Writes the time of a timestamp.
fn write_milliseconds<W: fmt::Write>(f: &mut fmt::Formatter<W>, octets: &[u8]) -> fmt::Result
    requires { length octets.now ≡ 8 }
    ensures { DisplaysOnOk W.Write.write_str_gives f.old result (Some (milliseconds_text octets.now)) f.new }
{
    match <[u8; 8]>::try_from(octets) {
        Ok(octets) => write!(
            f,
            "        Milliseconds since 1970: {}\n",
            u64::from_be_bytes(octets)
        ),
        Err(_) => Ok(()),
    }
}
