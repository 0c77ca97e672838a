//! The round trip of octets.
ghost use Rattle.std.specs.Prelude.{◌≡◌, MatchResult};

use crate::error::{Problem, TextError};
use crate::octets::octets_of;
use crate::printer::text_of;
use std::alloc::Global;

/// Reading the text of octets gives these octets.
pub fn texts_have_their_octets(alloc: Global, octets: &[u8]) -> Result<Vec<u8>, Problem>
    ensures { MatchResult result (λ v. v.items ≡ octets.now) (λ e. e ≡ Problem.OutOfMemory) }
{
    let text = text_of(alloc, octets)?;
    match octets_of(alloc, &text) {
        Ok(octets) => Ok(octets),
        Err(error) => Err(error.problem),
    }
}
