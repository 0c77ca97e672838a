//! The calls that write an input as DER, or why DER has no form of it.
ghost use Rattle.dumarewhi_page.specs.Content.Written.{WritesInput};

use crate::content::fault::Fault;
use crate::content::room::put;
use der_canon::canonical_into;
use der_elements::Reason;

/// Sets `needed` to the size of the input in DER, and writes that if `out` is large enough. Returns 0, or 1 if DER has
/// no form of the input.
#[unsafe(no_mangle)]
pub extern "C" fn page_canonical(input: &[u8], out: &mut [u8], needed: &mut usize) -> u32
    ensures { WritesInput input.now out.old out.new needed.old needed.new result }
{
    match canonical_into(input, out) {
        Ok(size) => {
            *needed = size;
            0
        }
        Err(_) => 1,
    }
}

/// Writes where and why DER has no form of the input, or nothing if it has one. `out` is a buffer as for
/// `page_canonical`. Returns the length of the text.
#[unsafe(no_mangle)]
pub extern "C" fn page_canonical_fault(input: &[u8], out: &mut [u8], text: &mut [u8]) -> usize {
    match canonical_into(input, out) {
        Ok(_) => 0,
        Err(refused) => {
            let fault = Fault {
                offset: refused.offset,
                path: &refused.path,
                reason: Reason::of(refused.cause, input.get(refused.offset..).unwrap_or(&[])),
            };
            put(text, fault)
        }
    }
}
