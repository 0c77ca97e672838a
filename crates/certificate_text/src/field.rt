//! Lines of fields.
use std::fmt;
use type_words::quoted;

/// A line of a field with a text: the label, and the text in quotes.
#[derive(Clone, Copy)]
pub(crate) struct TextField<'l, 'a> {
    pub label: &'l str,
    pub octets: &'a [u8],
}

impl fmt::Display for TextField<'_, '_> {
    ghost use Rattle.std.specs.Prelude.{Some};
    ghost use Rattle.certificate_text.specs.Words.{field_text};

    ghost output = { λ x. Some (field_text x.label.now x.octets.now) };

    fn fmt<W: fmt::Write>(&self, f: &mut fmt::Formatter<W>) -> fmt::Result {
        let label = self.label;
        let text = quoted(self.octets);
        write!(f, "  {label}: {text}\n")
    }
}
