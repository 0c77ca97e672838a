//! Values after a space.
ghost use Rattle.std.specs.Prelude.{◌++◌, codes};
ghost use Rattle.std.specs.Fmt.{DisplaysOnOk};
ghost use Rattle.std.specs.Option.{option_map};

use std::fmt;

/// Writes a value after a space. One format for both would cost more.
pub(crate) fn write_spaced<W: fmt::Write, D: fmt::Display + Drop>(
    f: &mut fmt::Formatter<W>,
    value: D,
) -> fmt::Result
    ensures { DisplaysOnOk W.Write.write_str_gives f.old result
        (option_map (λ text. codes " " ++ text) (D.output value)) f.new }
{
    f.write_str(" ")?;
    value.fmt(f)
}
