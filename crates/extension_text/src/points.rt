//! CRL distribution points (RFC 5280 4.2.1.13), and the scope of a CRL (5.2.5).
ghost use Rattle.std.specs.Option.{option_map};
ghost use Rattle.std.specs.Prelude.{Some};
ghost use Rattle.std.specs.Fmt.{DisplaysOnOk};
ghost use Rattle.der_extensions.specs.Extensions.{point_name_of};
ghost use Rattle.der_extensions.specs.Lists.{list_octets};
ghost use Rattle.der_extensions.specs.Revocation.{issuing_point_of};
ghost use Rattle.der_print.specs.Writes.{WritesOne};
ghost use Rattle.x509.specs.Certificates.{bits_of};
ghost use Rattle.extension_text.specs.Points.{AreOptionalNames, IsIssuingName, IsIssuingPoint, IsOptionalPointName};
ghost use Rattle.extension_text.specs.Points.{IsPointName, IsRelativeLine, issuing_text, optional_reasons};

use crate::general_name::write_general_names;
use crate::items::InWords;
use crate::names::lines::write_true;
use crate::names::name::write_relative_name;
use crate::usage::write_reasons;
use der_extensions::{
    DistributionPoint, DistributionPointName, GeneralNames, IssuingDistributionPoint,
};
use der_values::BitString;
use std::fmt;
use x509::RelativeDistinguishedName;

impl InWords for DistributionPoint<'_> {
    ghost use Rattle.der_extensions.specs.Extensions.{point_of};
    ghost use Rattle.extension_text.specs.Points.{IsPoint};

    ghost IsText = { λ x. IsPoint (point_of x) };

    fn write<W: fmt::Write>(&self, f: &mut fmt::Formatter<W>) -> fmt::Result {
        write!(f, "      Distribution point:\n")?;
        write_optional_point_name(f, &self.distribution_point)?;
        write_optional_reasons(f, "        Reasons:", self.reasons)?;
        write_optional_names(f, &self.crl_issuer)
    }
}

fn write_optional_point_name<W: fmt::Write>(
    f: &mut fmt::Formatter<W>,
    name: &Option<DistributionPointName<'_>>,
) -> fmt::Result
    ensures { WritesOne W.Write.write_str_gives f.old result
        (IsOptionalPointName (option_map point_name_of name.now)) f.new }
{
    match name {
        Some(name) => write_point_name(f, name),
        None => Ok(()),
    }
}

fn write_point_name<W: fmt::Write>(
    f: &mut fmt::Formatter<W>,
    name: &DistributionPointName<'_>,
) -> fmt::Result
    ensures { WritesOne W.Write.write_str_gives f.old result (IsPointName (point_name_of name.now)) f.new }
{
    match name {
        DistributionPointName::FullName(names) => write_general_names(f, "        ", names),
        DistributionPointName::NameRelativeToCrlIssuer(name) => write_relative_line(f, *name),
    }
}

fn write_relative_line<W: fmt::Write>(
    f: &mut fmt::Formatter<W>,
    name: RelativeDistinguishedName<'_>,
) -> fmt::Result
    ensures { WritesOne W.Write.write_str_gives f.old result (IsRelativeLine name.entry.octets.now) f.new }
{
    f.write_str("        Name after the issuer's: ")?;
    write_relative_name(f, name)?;
    write!(f, "\n")
}

fn write_optional_reasons<W: fmt::Write>(
    f: &mut fmt::Formatter<W>,
    label: &str,
    reasons: Option<BitString<'_>>,
) -> fmt::Result
    ensures { DisplaysOnOk W.Write.write_str_gives f.old result
        (Some (optional_reasons label.now (option_map bits_of reasons.entry))) f.new }
{
    match reasons {
        Some(bits) => write_reasons(f, label, bits),
        None => Ok(()),
    }
}

/// Writes the CRL issuer, if it is there.
fn write_optional_names<W: fmt::Write>(
    f: &mut fmt::Formatter<W>,
    names: &Option<GeneralNames<'_>>,
) -> fmt::Result
    ensures { WritesOne W.Write.write_str_gives f.old result
        (AreOptionalNames (option_map list_octets names.now)) f.new }
{
    match names {
        Some(names) => {
            write!(f, "        Issuer of the list:\n")?;
            write_general_names(f, "          ", names)
        }
        None => Ok(()),
    }
}

/// Writes the scope of a CRL.
pub(crate) fn write_issuing_point<W: fmt::Write>(
    f: &mut fmt::Formatter<W>,
    point: &IssuingDistributionPoint<'_>,
) -> fmt::Result
    ensures { WritesOne W.Write.write_str_gives f.old result (IsIssuingPoint (issuing_point_of point.now)) f.new }
{
    write_issuing_name(f, &point.distribution_point)?;
    write_scope(f, point)
}

fn write_issuing_name<W: fmt::Write>(
    f: &mut fmt::Formatter<W>,
    name: &Option<DistributionPointName<'_>>,
) -> fmt::Result
    ensures { WritesOne W.Write.write_str_gives f.old result (IsIssuingName (option_map point_name_of name.now)) f.new }
{
    match name {
        Some(name) => {
            write!(f, "      Distribution point:\n")?;
            write_point_name(f, name)
        }
        None => Ok(()),
    }
}

/// Writes the kinds of certificates in the CRL.
fn write_scope<W: fmt::Write>(
    f: &mut fmt::Formatter<W>,
    point: &IssuingDistributionPoint<'_>,
) -> fmt::Result
    ensures { DisplaysOnOk W.Write.write_str_gives f.old result
        (Some (issuing_text (issuing_point_of point.now))) f.new }
{
    write_true(
        f,
        "      Only user certificates: ",
        point.only_contains_user_certs,
    )?;
    write_true(
        f,
        "      Only CA certificates: ",
        point.only_contains_ca_certs,
    )?;
    write_optional_reasons(f, "      Only some reasons:", point.only_some_reasons)?;
    write_true(f, "      Indirect CRL: ", point.indirect_crl)?;
    write_true(
        f,
        "      Only attribute certificates: ",
        point.only_contains_attribute_certs,
    )
}
