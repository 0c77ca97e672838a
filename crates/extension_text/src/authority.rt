//! authorityKeyIdentifier and basicConstraints (RFC 5280 4.2.1.1, 4.2.1.9).
ghost use Rattle.std.specs.Option.{option_map};
ghost use Rattle.std.specs.Prelude.{◌≡◌, Some};
ghost use Rattle.std.specs.Fmt.{DisplaysOnOk};
ghost use Rattle.der_base.specs.Pretty.{boolean_text};
ghost use Rattle.der_extensions.specs.Extensions.{authority_of};
ghost use Rattle.der_extensions.specs.Lists.{list_octets};
ghost use Rattle.der_print.specs.Writes.{WritesOne};
ghost use Rattle.extension_text.specs.Extensions.{AreIssuerNames, IsAuthority, constraints_text};
ghost use Rattle.extension_text.specs.Extensions.{optional_serial};

use crate::general_name::write_general_names;
use crate::names::lines::{write_optional_number, write_optional_octets};
use crate::names::serial::Serial;
use der_extensions::{AuthorityKeyIdentifier, BasicConstraints, GeneralNames};
use std::fmt;

/// Writes a BasicConstraints.
pub(crate) fn write_constraints<W: fmt::Write>(
    f: &mut fmt::Formatter<W>,
    constraints: &BasicConstraints,
) -> fmt::Result
    ensures { DisplaysOnOk W.Write.write_str_gives f.old result (Some (constraints_text constraints.now)) f.new }
{
    write!(f, "      CA: {}\n", truth_word(constraints.ca))?;
    write_optional_number(f, "      Path length: ", constraints.path_length)
}

fn truth_word(truth: bool) -> &'static str
    ensures { result.now ≡ boolean_text truth }
{
    if truth { "true" } else { "false" }
}

/// Writes an AuthorityKeyIdentifier.
pub(crate) fn write_authority<W: fmt::Write>(
    f: &mut fmt::Formatter<W>,
    authority: &AuthorityKeyIdentifier<'_>,
) -> fmt::Result
    ensures { WritesOne W.Write.write_str_gives f.old result (IsAuthority (authority_of authority.now)) f.new }
{
    write_optional_octets(f, "      Key identifier: ", authority.key_identifier)?;
    write_issuer_names(f, &authority.authority_cert_issuer)?;
    write_optional_serial(f, authority.authority_cert_serial_number)
}

/// Writes authorityCertIssuer, the issuer of the issuer's certificate, if it is there.
fn write_issuer_names<W: fmt::Write>(
    f: &mut fmt::Formatter<W>,
    names: &Option<GeneralNames<'_>>,
) -> fmt::Result
    ensures { WritesOne W.Write.write_str_gives f.old result (AreIssuerNames (option_map list_octets names.now)) f.new }
{
    match names {
        Some(names) => {
            write!(f, "      Issuer:\n")?;
            write_general_names(f, "        ", names)
        }
        None => Ok(()),
    }
}

/// Writes the serial number of the issuer's certificate, if it is there.
fn write_optional_serial<W: fmt::Write>(
    f: &mut fmt::Formatter<W>,
    octets: Option<&[u8]>,
) -> fmt::Result
    ensures { DisplaysOnOk W.Write.write_str_gives f.old result
        (Some (optional_serial (option_map (λ w. w.now) octets.entry))) f.new }
{
    match octets {
        Some(octets) => write!(f, "      Serial number: {}\n", Serial { octets }),
        None => Ok(()),
    }
}
