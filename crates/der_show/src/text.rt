//! Texts in memory.
ghost use Rattle.std.specs.Prelude.{◌≡◌, ◌↔◌, [], IfOk, IfSome, IsTrue};
ghost use Rattle.certificate_text.specs.Partials.{IsPartialText};
ghost use Rattle.x509.specs.Partial.Partials.{partial_of};
ghost use Rattle.der_show.specs.Known.{KeepsRules};
ghost use Rattle.der_show.specs.Shown.{IsShown};

use crate::known::Known;
use crate::shown::write_known;
use certificate_text::write_partial;
use std::alloc::{AllocError, Global};
use std::fmt;
use x509::partial::PartialCertificate;

/// A buffer for a text.
#[derive(Drop)]
pub(crate) struct Text {
    octets: Vec<u8>,
}

impl Text {
    fn new(alloc: Global) -> Text
        ensures { result.octets.items ≡ [] }
    {
        Text {
            octets: Vec::new(alloc),
        }
    }
}

impl fmt::Write for Text {
    ghost use Rattle.std.specs.Prelude.{◌++◌};

    ghost write_str_gives = { λ t text u. u.octets.items ≡ t.octets.items ++ text };

    fn write_str(&mut self, text: &str) -> fmt::Result {
        match self.octets.extend_from_slice(text.as_bytes()) {
            Ok(()) => Ok(()),
            Err(_) => Err(fmt::Error),
        }
    }
}

/// The text of a value.
pub(crate) fn text_of<D: fmt::Display + Drop>(
    alloc: Global,
    value: D,
) -> Result<Vec<u8>, AllocError>
    ensures { IfOk result (λ v. IfSome (D.output value) (λ text. v.items ≡ text)) }
{
    let mut f = fmt::Formatter::new(Text::new(alloc));
    match f.write(value) {
        Ok(()) => Ok(f.into_inner().octets),
        Err(_) => Err(AllocError),
    }
}

/// The summary of what was read of a certificate before an error.
pub(crate) fn text_of_partial(
    alloc: Global,
    partial: &PartialCertificate<'_>,
    now: Option<u64>,
) -> Result<Vec<u8>, AllocError>
    ensures { IfOk result (λ v. IsPartialText now (partial_of partial.now) v.items) }
{
    let mut f = fmt::Formatter::new(Text::new(alloc));
    match write_partial(&mut f, partial, now) {
        Ok(()) => Ok(f.into_inner().octets),
        Err(_) => Err(AllocError),
    }
}

/// The summary of a certificate, CRL or certification request.
#[derive(Drop)]
pub(crate) struct Summary {
    pub(crate) text: Vec<u8>,
    /// Whether it keeps every MUST rule (`write_known`).
    pub(crate) keeps_rules: bool,
}

/// Summarizes a certificate, CRL or certification request.
pub(crate) fn summary_of(
    alloc: Global,
    octets: &[u8],
    known: &Known<'_>,
    now: Option<u64>,
) -> Result<Summary, AllocError>
    ensures text { IfOk result (λ s. IsShown now octets.now known.now s.text.items) }
    ensures rules { IfOk result (λ s. IsTrue s.keeps_rules ↔ KeepsRules known.now) }
{
    let mut f = fmt::Formatter::new(Text::new(alloc));
    match write_known(&mut f, octets, known, now) {
        Ok(keeps_rules) => {
            Ok(Summary {
                text: f.into_inner().octets,
                keeps_rules,
            })
        }
        Err(_) => Err(AllocError),
    }
}
