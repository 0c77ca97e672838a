//! The elements of an input, and whether the input is elements alone.
ghost use Rattle.std.specs.Prelude.{◌≡◌, ◌==◌, ◌-◌, if◌then◌else◌, get_or, length, replicate, slice_set};
ghost use Rattle.dumarewhi_page.specs.Content.Listed.{Lists};

use crate::content::row::PageRow;
use der_elements::{MAX_DEPTH, Rules, Walk};

/// The number of depths.
const DEPTHS: usize = MAX_DEPTH + 1;

/// The result of a walk.
#[repr(C)]
#[derive(Clone, Copy)]
pub struct PageOutcome {
    /// The number of elements, even if the capacity is smaller.
    pub rows: usize,
    /// The offset of the rejected element, or the length of a cut input. 0 if none is rejected.
    pub place: usize,
    /// The number of open elements at the end of the walk. A rejected one counts if it lacks its end-of-contents
    /// octets.
    pub depth: usize,
    /// 1 if an element is rejected, else 0.
    pub refused: u32,
}

/// The last row of each depth.
#[derive(Drop)]
struct Last {
    rows: [usize; DEPTHS],
}

impl Last {
    /// No rows.
    fn none() -> Last
        ensures { result.rows ≡ replicate 101 0 }
    {
        Last { rows: [0; DEPTHS] }
    }

    /// The row of the element around this depth, or 0.
    fn around(&self, depth: usize) -> usize
        ensures { result ≡ (if depth == 0 then 0 else get_or self.now.rows (depth - 1) 0) }
    {
        if depth == 0 {
            return 0;
        }
        self.rows.get(depth - 1).copied().unwrap_or(0)
    }

    fn set(&mut self, depth: usize, row: usize)
        requires { length self.old.rows ≡ 101 }
        ensures { self.new.rows ≡ slice_set self.old.rows depth row }
    {
        if depth < DEPTHS {
            self.rows[depth] = row;
        }
    }
}

/// Lists the elements of an input, as far as the capacity allows.
pub fn list(input: &[u8], rules: Rules, rows: &mut [PageRow]) -> PageOutcome
    ensures { Lists rules input.now rows.new result }
{
    let mut walk = Walk::new(input, rules, true).keeping_values();
    let mut last = Last::none();
    let mut count = 0;
    'elements: loop {
        match walk.next_element() {
            Ok(Some(element)) => {
                let row = PageRow::new(&element, last.around(element.depth));
                put_row(rows, count, row);
                count += 1;
                last.set(element.depth, count);
            }
            Ok(None) => return ended(count),
            Err(refusal) => return refused(count, refusal.offset, walk.depth()),
        }
    }
}

/// The outcome of a walk to the end.
fn ended(rows: usize) -> PageOutcome
    ensures rows { result.rows ≡ rows }
    ensures refused { result.refused ≡ 0 }
{
    PageOutcome {
        rows,
        place: 0,
        depth: 0,
        refused: 0,
    }
}

/// The outcome of a walk to a rejected element.
fn refused(rows: usize, place: usize, depth: usize) -> PageOutcome
    ensures rows { result.rows ≡ rows }
    ensures place { result.place ≡ place }
    ensures depth { result.depth ≡ depth }
    ensures refused { result.refused ≡ 1 }
{
    PageOutcome {
        rows,
        place,
        depth,
        refused: 1,
    }
}

/// Writes a row, if the capacity allows.
fn put_row(rows: &mut [PageRow], at: usize, row: PageRow)
    ensures { rows.new ≡ slice_set rows.old at row }
{
    if at < rows.len() {
        rows[at] = row;
    }
}
