//! IP addresses (RFC 5280 4.2.1.6, 4.2.1.10).
ghost use Rattle.std.specs.Prelude.{◌≡◌, Some};
ghost use Rattle.std.specs.Fmt.{DisplaysOnOk};
ghost use Rattle.extension_text.specs.GeneralNames.{address_text, has_mask, host_text, longer_text, masked_text};

use der_print::{Hex, Limit};
use std::fmt;
use std::net::{Ipv4Addr, Ipv6Addr};

/// Writes an address, and its mask if it has one: `192.0.2.0/255.255.255.0`.
pub(crate) fn write_address<W: fmt::Write>(f: &mut fmt::Formatter<W>, octets: &[u8]) -> fmt::Result
    ensures { DisplaysOnOk W.Write.write_str_gives f.old result (Some (address_text octets.now)) f.new }
{
    if has_mask(octets) {
        let (address, mask) = octets.split_at(octets.len() / 2);
        return write_masked(f, address, mask);
    }
    write_host(f, octets)
}

/// Writes an address and its mask.
fn write_masked<W: fmt::Write>(
    f: &mut fmt::Formatter<W>,
    address: &[u8],
    mask: &[u8],
) -> fmt::Result
    ensures { DisplaysOnOk W.Write.write_str_gives f.old result (Some (masked_text address.now mask.now)) f.new }
{
    write_host(f, address)?;
    write!(f, "/")?;
    write_host(f, mask)
}

/// Returns whether octets are an address and a mask of the same length, as in name constraints.
fn has_mask(octets: &[u8]) -> bool
    ensures { result ≡ has_mask octets.now }
{
    octets.len() == 8 || octets.len() == 32
}

/// Writes an address of 4 or 16 octets; any other as octets.
fn write_host<W: fmt::Write>(f: &mut fmt::Formatter<W>, octets: &[u8]) -> fmt::Result
    ensures { DisplaysOnOk W.Write.write_str_gives f.old result (Some (host_text octets.now)) f.new }
{
    match <[u8; 4]>::try_from(octets) {
        Ok(octets) => write!(f, "{}", Ipv4Addr::from_octets(octets)),
        Err(_) => write_longer(f, octets),
    }
}

/// Writes an address of other than 4 octets.
fn write_longer<W: fmt::Write>(f: &mut fmt::Formatter<W>, octets: &[u8]) -> fmt::Result
    ensures { DisplaysOnOk W.Write.write_str_gives f.old result (Some (longer_text octets.now)) f.new }
{
    match <[u8; 16]>::try_from(octets) {
        Ok(octets) => write!(f, "{}", Ipv6Addr::from_octets(octets)),
        Err(_) => {
            let limit = Limit::Whole;
            write!(f, "{}", Hex { octets, limit })
        }
    }
}
