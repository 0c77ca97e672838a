//! The call that writes the summary of an input.
ghost use Rattle.dumarewhi_page.specs.Content.Summaries.{PutsKnown};

use crate::content::shown::put_known;
use der_show::what_is;

/// Writes the summary of a certificate, a CRL or a certification request, if the input is one. `present` is in seconds
/// since 1970-01-01 00:00:00 UTC. Returns the length of the text, as the calls in `texts`.
#[unsafe(no_mangle)]
pub extern "C" fn page_shown(input: &[u8], present: u64, text: &mut [u8]) -> usize
    ensures { PutsKnown present input.now text.old text.new result }
{
    match what_is(input) {
        Some(known) => put_known(input, &known, present, text),
        None => 0,
    }
}
