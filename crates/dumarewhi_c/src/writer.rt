//! The call that writes elements as DER.
ghost use Rattle.std.specs.Prelude.{◌≡◌};
ghost use Rattle.c_values.specs.Outcomes.{Writes};

use c_values::outcome::{DmOutcome, outcome_of_written};
use der_canon::canonical_into;

/// Writes all elements of a BER input as DER, if the buffer is large enough. Returns the outcome's status.
#[unsafe(no_mangle)]
pub extern "C" fn dm_write_der(input: &[u8], out: &mut [u8], outcome: &mut DmOutcome) -> u32
    ensures exactly { Writes input.now out.old out.new outcome.new }
    ensures status { result ≡ outcome.new.status }
{
    let written = canonical_into(input, out);
    *outcome = outcome_of_written(out.len(), written);
    outcome.status
}
