//! The label of a block, as printed.
ghost use Rattle.std.specs.Prelude.{◌≡◌, IfOk, Some, string_bytes};
ghost use Rattle.std.specs.Fmt.{DisplaysOnOk};
ghost use Rattle.der_base.specs.Pretty.{hex_pair};
ghost use Rattle.der_actions.specs.Labels.{is_plain, label_text, octet_text};

use std::alloc::{AllocError, Global};
use std::fmt;

/// The label of a block, such as `CERTIFICATE`. A backslash, or an octet that isn't printable ASCII, is printed as an
/// escape such as `\x0a`.
#[derive(Clone, Copy)]
pub struct Label<'a>(pub &'a [u8]);

impl fmt::Display for Label<'_> {
    ghost use Rattle.std.specs.Prelude.{Some};
    ghost use Rattle.der_actions.specs.Labels.{label_text};

    ghost output = { λ x. Some (label_text x.0.now) };

    fn fmt<W: fmt::Write>(&self, f: &mut fmt::Formatter<W>) -> fmt::Result {
        let octets = self.0;
        for octet in octets {
            write_octet(f, *octet)?;
        }
        Ok(())
    }
}

/// The label as text, with escapes.
pub fn shown_label(alloc: Global, label: &[u8]) -> Result<String, AllocError>
    ensures { IfOk result (λ text. string_bytes text ≡ label_text label.now) }
{
    format!(in alloc; "{}", Label(label))
}

/// Writes an octet of a label.
fn write_octet<W: fmt::Write>(f: &mut fmt::Formatter<W>, octet: u8) -> fmt::Result
    ensures { DisplaysOnOk W.Write.write_str_gives f.old result (Some (octet_text octet)) f.new }
{
    if is_plain(octet) {
        let character = char::from(octet);
        return write!(f, "{character}");
    }
    write!(f, "\\x")?;
    write_pair(f, octet)
}

/// Writes an octet as two hexadecimal digits.
fn write_pair<W: fmt::Write>(f: &mut fmt::Formatter<W>, octet: u8) -> fmt::Result
    ensures { DisplaysOnOk W.Write.write_str_gives f.old result (Some (hex_pair octet)) f.new }
{
    write!(f, "{octet:02x}")
}

/// Whether an octet is printable ASCII other than a backslash.
fn is_plain(octet: u8) -> bool
    ensures { result ≡ is_plain octet }
{
    octet >= b' ' && octet <= b'~' && octet != b'\\'
}
