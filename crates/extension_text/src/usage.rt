//! Key usage (RFC 5280 4.2.1.3) and reasons of revocation (4.2.1.13).
ghost use Rattle.std.specs.Prelude.{Some};
ghost use Rattle.std.specs.Fmt.{DisplaysOnOk};
ghost use Rattle.der_values.specs.Kinds.{is_bit_set};
ghost use Rattle.extension_text.specs.Usage.{flags_text, reasons_text, usage_text, use_text, uses_text};

use der_extensions::KeyUsage;
use der_values::BitString;
use std::fmt;

/// Writes the uses of a key.
pub(crate) fn write_usage<W: fmt::Write>(
    f: &mut fmt::Formatter<W>,
    usage: &KeyUsage<'_>,
) -> fmt::Result
    ensures { DisplaysOnOk W.Write.write_str_gives f.old result (Some (usage_text usage.now.bits.octets.now)) f.new }
{
    write!(f, "      Uses:")?;
    write_uses(f, usage)?;
    write!(f, "\n")
}

fn write_uses<W: fmt::Write>(f: &mut fmt::Formatter<W>, usage: &KeyUsage<'_>) -> fmt::Result
    ensures { DisplaysOnOk W.Write.write_str_gives f.old result (Some (uses_text usage.now.bits.octets.now)) f.new }
{
    write_use(f, usage.bits, 0, "digitalSignature")?;
    write_use(f, usage.bits, 1, "nonRepudiation")?;
    write_use(f, usage.bits, 2, "keyEncipherment")?;
    write_use(f, usage.bits, 3, "dataEncipherment")?;
    write_use(f, usage.bits, 4, "keyAgreement")?;
    write_use(f, usage.bits, 5, "keyCertSign")?;
    write_use(f, usage.bits, 6, "cRLSign")?;
    write_use(f, usage.bits, 7, "encipherOnly")?;
    write_use(f, usage.bits, 8, "decipherOnly")
}

/// Writes a name after a space, if its bit is set.
fn write_use<W: fmt::Write>(
    f: &mut fmt::Formatter<W>,
    bits: BitString<'_>,
    number: usize,
    name: &str,
) -> fmt::Result
    ensures { DisplaysOnOk W.Write.write_str_gives f.old result
        (Some (use_text (is_bit_set number bits.entry.octets.now) name.now)) f.new }
{
    if bits.is_set(number) {
        return write!(f, " {name}");
    }
    Ok(())
}

/// Writes the reasons of revocation that a CRL covers.
pub(crate) fn write_reasons<W: fmt::Write>(
    f: &mut fmt::Formatter<W>,
    label: &str,
    bits: BitString<'_>,
) -> fmt::Result
    ensures { DisplaysOnOk W.Write.write_str_gives f.old result
        (Some (reasons_text label.now bits.entry.octets.now)) f.new }
{
    f.write_str(label)?;
    write_flags(f, bits)?;
    write!(f, "\n")
}

fn write_flags<W: fmt::Write>(f: &mut fmt::Formatter<W>, bits: BitString<'_>) -> fmt::Result
    ensures { DisplaysOnOk W.Write.write_str_gives f.old result (Some (flags_text bits.entry.octets.now)) f.new }
{
    write_use(f, bits, 0, "unused")?;
    write_use(f, bits, 1, "keyCompromise")?;
    write_use(f, bits, 2, "cACompromise")?;
    write_use(f, bits, 3, "affiliationChanged")?;
    write_use(f, bits, 4, "superseded")?;
    write_use(f, bits, 5, "cessationOfOperation")?;
    write_use(f, bits, 6, "certificateHold")?;
    write_use(f, bits, 7, "privilegeWithdrawn")?;
    write_use(f, bits, 8, "aACompromise")
}
