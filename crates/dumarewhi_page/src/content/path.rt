//! Paths to rows.
ghost use Rattle.std.specs.Fmt.{DisplaysOnOk};
ghost use Rattle.std.specs.Prelude.{Some};
ghost use Rattle.dumarewhi_page.specs.Content.Paths.{path_to};

use crate::content::row::PageRow;
use der_elements::MAX_DEPTH;
use std::fmt;

/// The path to a row's element, such as `SEQUENCE[0].[3].INTEGER[1]`.
#[derive(Clone, Copy)]
pub struct RowPath<'a> {
    pub rows: &'a [PageRow],
    /// The number of the row, from 0.
    pub number: usize,
}

impl fmt::Display for RowPath<'_> {
    ghost use Rattle.std.specs.Prelude.{Some};
    ghost use Rattle.dumarewhi_page.specs.Content.Paths.{path_to};

    ghost output = { λ x. Some (path_to 100 x.rows.now x.number) };

    fn fmt<W: fmt::Write>(&self, f: &mut fmt::Formatter<W>) -> fmt::Result {
        write_path(f, self.rows, self.number, MAX_DEPTH)
    }
}

/// Writes the path to a row, with at most so many steps before its own.
#[tactic(auto, unfolding(crate::specs::Content::Paths::path_to))]
fn write_path<W: fmt::Write>(
    f: &mut fmt::Formatter<W>,
    rows: &[PageRow],
    number: usize,
    most: usize,
) -> fmt::Result
    ensures { DisplaysOnOk W.Write.write_str_gives f.old result (Some (path_to most rows.now number)) f.new }
{
    let Some(row) = rows.get(number) else {
        return Ok(());
    };
    let step = row.step();
    if row.around == 0 || most == 0 {
        return write!(f, "{step}");
    }
    write_path(f, rows, row.around - 1, most - 1)?;
    write!(f, ".{step}")
}
