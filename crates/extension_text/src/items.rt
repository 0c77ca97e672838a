//! Lists of values of one type, as their octets.
ghost use Rattle.der_base.specs.declared.rules.Rules.{Rules};
ghost use Rattle.der_print.specs.Writes.{WritesOne};
ghost use Rattle.extension_text.specs.Names.Pieces.{Each, IsTextOf};

use der_base::error::BerError;
use der_extensions::{Item, SequenceOf};
use std::fmt;

/// A value of a list that has a text.
pub(crate) trait InWords {
    ghost use Rattle.std.specs.Prelude.{List, ℕ};
    ghost use Rattle.der_print.specs.Writes.{WritesOne};

    // The texts that are right for it.
    ghost IsText: { Self → List ℕ → Type 0 };

    /// Writes the lines of the value.
    fn write<W: fmt::Write>(&self, f: &mut fmt::Formatter<W>) -> fmt::Result
        ensures { WritesOne W.Write.write_str_gives f.old result (IsText self.now) f.new };
}

/// Writes the values of a list, one after another.
pub(crate) fn write_items<'a, W: fmt::Write, T: Item<'a, BerError> + InWords>(
    f: &mut fmt::Formatter<W>,
    list: &SequenceOf<'a, T>,
) -> fmt::Result
    ensures { WritesOne W.Write.write_str_gives f.old result
        (Each (T.field Rules.Der) (IsTextOf T.view T.IsText) list.now.octets.now) f.new }
{
    for item in list.iter() {
        item.write(f)?;
    }
    Ok(())
}
