//! The origin of octets.
ghost use Rattle.std.specs.Option.{option_map_or};
ghost use Rattle.std.specs.Prelude.{◌≡◌, codes, false};
ghost use Rattle.std.specs.Str.{bytes_eq};

use crate::name::Name;
use std::fmt;

/// The origin of octets: a file, or a PEM block in it.
#[derive(Clone, Copy)]
pub struct Origin<'a> {
    /// The name of the file.
    pub name: &'a str,
    /// None if the file has no blocks.
    pub block: Option<BlockName<'a>>,
}

/// A PEM block (RFC 7468).
#[derive(Clone, Copy)]
pub struct BlockName<'a> {
    /// The number of the block in the file, from 1.
    pub number: usize,
    /// The label, such as `CERTIFICATE`.
    pub label: &'a [u8],
    /// The label as printed.
    pub shown: &'a str,
}

impl Origin<'_> {
    /// The format of a block that isn't ASN.1, by its label.
    pub(crate) fn other_format(&self) -> Option<&'static str> {
        match self.block {
            Some(block) if block.shown == "OPENSSH PRIVATE KEY" => Some("OpenSSH's own format"),
            _ => None,
        }
    }

    /// Whether OpenSSL's trust settings may follow a certificate, by the label of the block.
    pub fn is_trusted(&self) -> bool
        ensures { result ≡ option_map_or (λ b. bytes_eq b.shown.now (codes "TRUSTED CERTIFICATE")) self.now.block false }
    {
        match self.block {
            Some(block) => block.shown == "TRUSTED CERTIFICATE",
            None => false,
        }
    }
}

impl fmt::Display for Origin<'_> {
    fn fmt<W: fmt::Write>(&self, f: &mut fmt::Formatter<W>) -> fmt::Result {
        let name = Name(self.name);
        match self.block {
            Some(block) => {
                let number = block.number;
                let shown = block.shown;
                write!(f, "{name}, block {number} ({shown})")
            }
            None => write!(f, "{name}"),
        }
    }
}
