//! Texts without control characters.
ghost use Rattle.std.specs.Prelude.{◌≡◌};
ghost use Rattle.std.specs.List.{list_all};
ghost use Rattle.der_print.specs.Shown.{is_shown};

/// Returns whether no octet is a control character of ASCII. It reads all octets, many at once, which is faster.
pub(crate) fn are_shown(octets: &[u8]) -> bool
    ensures { result ≡ list_all is_shown octets.now }
{
    let mut shown = true;
    for octet in octets {
        shown &= is_shown(*octet);
    }
    shown
}

/// Returns whether an octet isn't a control character of ASCII.
fn is_shown(octet: u8) -> bool
    ensures { result ≡ is_shown octet }
{
    octet >= 0x20 && octet != 0x7f
}
