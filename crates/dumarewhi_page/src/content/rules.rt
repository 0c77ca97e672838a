//! Rules by numbers.
ghost use Rattle.std.specs.Prelude.{◌≡◌};
ghost use Rattle.dumarewhi_page.specs.Content.Rules.{rules_numbered};

use der_elements::Rules;

/// The rules with this number: 1 for DER, and any other for BER.
pub fn rules_numbered(number: u32) -> Rules
    ensures { result ≡ rules_numbered number }
{
    if number == 1 { Rules::Der } else { Rules::Ber }
}
