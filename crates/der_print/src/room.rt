//! The buffer of a line.
ghost use Rattle.std.specs.Prelude.{◌≡◌, []};
ghost use Rattle.der_print.specs.Texts.{octets_in};

use crate::line_octets::LineOctets;
use std::alloc::Global;

/// The buffer of a line, which the next line can use again.
#[derive(Drop)]
pub struct Room {
    pub(crate) line: LineOctets,
}

impl Room {
    /// An empty buffer, which allocates when a line needs it.
    pub fn new(alloc: Global) -> Room
        ensures { octets_in result.line ≡ [] }
    {
        Room {
            line: LineOctets::new(alloc),
        }
    }
}
