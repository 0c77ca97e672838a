//! Calls that read elements, by DER or BER.
ghost use Rattle.std.specs.Prelude.{◌≡◌, min};
ghost use Rattle.c_values.specs.Outcomes.{Checks, FindsBer, FindsDer, Lists, greatest_depth};
ghost use Rattle.der_base.specs.declared.rules.Rules.TheVariants.{Ber, Der};

use c_values::element::DmElement;
use c_values::outcome::{DmOutcome, outcome_of_first};
use c_values::readers::list;
use der_base::any::Any;
use der_base::rules::Rules;

/// Reads the first element by DER and lists the elements. Returns the outcome's status.
#[unsafe(no_mangle)]
pub extern "C" fn dm_parse_der(
    input: &[u8],
    max_depth: usize,
    elements: &mut [DmElement],
    outcome: &mut DmOutcome,
) -> u32
    ensures exactly { Lists Der (min max_depth greatest_depth) input.now elements.old elements.new outcome.new }
    ensures status { result ≡ outcome.new.status }
{
    *outcome = list(input, Rules::Der, max_depth, elements);
    outcome.status
}

/// Reads the first element by BER and lists the elements. Returns the outcome's status.
#[unsafe(no_mangle)]
pub extern "C" fn dm_parse_ber(
    input: &[u8],
    max_depth: usize,
    elements: &mut [DmElement],
    outcome: &mut DmOutcome,
) -> u32
    ensures exactly { Lists Ber (min max_depth greatest_depth) input.now elements.old elements.new outcome.new }
    ensures status { result ≡ outcome.new.status }
{
    *outcome = list(input, Rules::Ber, max_depth, elements);
    outcome.status
}

/// Reads the first element by DER, without a list. Returns the outcome's status.
#[unsafe(no_mangle)]
pub extern "C" fn dm_check_der(input: &[u8], max_depth: usize, outcome: &mut DmOutcome) -> u32
    ensures exactly { Checks Der (min max_depth greatest_depth) input.now outcome.new }
    ensures status { result ≡ outcome.new.status }
{
    *outcome = list(input, Rules::Der, max_depth, &mut []);
    outcome.status
}

/// Reads the first element by BER, without a list. Returns the outcome's status.
#[unsafe(no_mangle)]
pub extern "C" fn dm_check_ber(input: &[u8], max_depth: usize, outcome: &mut DmOutcome) -> u32
    ensures exactly { Checks Ber (min max_depth greatest_depth) input.now outcome.new }
    ensures status { result ≡ outcome.new.status }
{
    *outcome = list(input, Rules::Ber, max_depth, &mut []);
    outcome.status
}

/// Finds the first element by the DER of its header; its content isn't read. Writes it as an element with none inside.
/// Returns the outcome's status.
#[unsafe(no_mangle)]
pub extern "C" fn dm_first_der(
    input: &[u8],
    element: &mut DmElement,
    outcome: &mut DmOutcome,
) -> u32
    ensures exactly { FindsDer input.now element.old element.new outcome.new }
    ensures status { result ≡ outcome.new.status }
{
    *outcome = outcome_of_first(input.len(), Any::from_der(input), element);
    outcome.status
}

/// As `dm_first_der`, by BER. If a length is indefinite, the headers inside are read to find its end.
#[unsafe(no_mangle)]
pub extern "C" fn dm_first_ber(
    input: &[u8],
    element: &mut DmElement,
    outcome: &mut DmOutcome,
) -> u32
    ensures exactly { FindsBer input.now element.old element.new outcome.new }
    ensures status { result ≡ outcome.new.status }
{
    *outcome = outcome_of_first(input.len(), Any::from_ber(input), element);
    outcome.status
}
