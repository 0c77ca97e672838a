//! Reading by the given rules.
ghost use Rattle.std.specs.Prelude.{◌<◌, IfOk, length};
ghost use Rattle.derdump.specs.Elements.{AnswersElement};

use der_parser::error::BerResult;
use der_parser::{Rules, parse_ber, parse_der};
use std::alloc::Global;

/// Reads one object by these rules, and returns the rest of the input with it.
pub fn read_object<'a>(alloc: Global, rules: Rules, input: &'a [u8]) -> BerResult<'a>
    ensures exactly { AnswersElement rules input.now result }
    ensures shorter { IfOk result (λ x. length x.0.now < length input.now) }
{
    match rules {
        Rules::Ber => parse_ber(alloc, input),
        Rules::Der => parse_der(alloc, input),
    }
}
