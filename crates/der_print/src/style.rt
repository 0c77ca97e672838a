//! How much of a value is printed, and whether in colours.
ghost use Rattle.std.specs.Prelude.{◌≡◌};

/// How much of a long value is printed.
#[derive(Clone, Copy, Debug, PartialEq)]
pub enum Limit {
    /// All of it.
    Whole,
    /// The first octets or characters, a fixed number.
    Front,
    /// As much as fits in these columns.
    Columns(usize),
}

impl Limit {
    ghost use Rattle.der_print.specs.Cuts.{limit_without};

    /// The limit if other text takes these columns.
    pub(crate) fn without(self, columns: usize) -> Limit
        ensures { result ≡ limit_without self columns }
    {
        match self {
            Limit::Columns(all) => Limit::Columns(all.saturating_sub(columns)),
            limit => limit,
        }
    }
}

/// How elements are printed.
#[derive(Clone, Copy, Debug, PartialEq)]
pub struct Style {
    /// How much of a value is printed. Columns are those of the whole line.
    pub limit: Limit,
    /// Whether colours are used.
    pub colours: bool,
}
