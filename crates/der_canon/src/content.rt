//! The content octets that DER gives a value.
ghost use Rattle.std.specs.Prelude.{◌≡◌, ◌-◌, ◌%◌, ◌^◌};
ghost use Rattle.der_canon.specs.Values.{boolean_octet};

/// The content octet of a BOOLEAN: 00, or ff for any other (11.1).
pub(crate) fn boolean(octet: u8) -> u8
    ensures { result ≡ boolean_octet octet }
{
    if octet == 0 { 0 } else { 0xff }
}

/// The last octet of a BIT STRING with its unused bits set to 0 (11.2.1).
pub(crate) fn without_unused(octet: u8, unused: u8) -> u8
    ensures { result ≡ octet - octet % 2 ^ unused }
{
    match unused {
        0 => octet,
        1 => octet - octet % 2,
        2 => octet - octet % 4,
        3 => octet - octet % 8,
        4 => octet - octet % 16,
        5 => octet - octet % 32,
        6 => octet - octet % 64,
        7 => octet - octet % 128,
        _ => 0,
    }
}
