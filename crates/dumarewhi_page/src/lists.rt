//! Calls that list the elements of an input, or test that it is elements alone.
ghost use Rattle.std.specs.Prelude.{◌≡◌, ◌↔◌};
ghost use Rattle.der_elements.specs.Check.Elements.{AreElements};
ghost use Rattle.dumarewhi_page.specs.Content.Listed.{Lists};
ghost use Rattle.dumarewhi_page.specs.Content.Rules.{rules_numbered};

use crate::content::lists::{PageOutcome, list};
use crate::content::row::PageRow;
use crate::content::rules::rules_numbered;
use der_elements::MAX_DEPTH;
use der_elements::check::are_elements;

/// Lists the elements of an input in preorder, with those inside strings that hold DER, as far as the capacity allows.
#[unsafe(no_mangle)]
pub extern "C" fn page_list(
    input: &[u8],
    rules: u32,
    rows: &mut [PageRow],
    outcome: &mut PageOutcome,
)
    ensures { Lists (rules_numbered rules) input.now rows.new outcome.new }
{
    *outcome = list(input, rules_numbered(rules), rows);
}

/// Returns 1 if the input is elements of these rules alone, one after another, else 0.
#[unsafe(no_mangle)]
pub extern "C" fn page_is_elements(input: &[u8], rules: u32) -> u32
    ensures { (result ≡ 1) ↔ AreElements (rules_numbered rules) 101 input.now }
{
    if are_elements(input, rules_numbered(rules), MAX_DEPTH + 1) {
        1
    } else {
        0
    }
}
