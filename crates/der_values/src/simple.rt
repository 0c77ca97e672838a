//! BOOLEAN and NULL (X.690 8.2, 8.8, 11.1).
ghost use Rattle.std.specs.Prelude.{[], ◌∷◌};
ghost use Rattle.der_base.specs.declared.rules.Rules.{Rules};
ghost use Rattle.der_values.specs.Kinds.{Decodes, booleans, nulls};

use der_base::error::{BerError, DerConstraint};
use der_base::rules::Rules;

/// The value of a BOOLEAN (X.690 8.2): one octet, which is 00 for false. By DER it is ff for true (11.1).
///
/// Errors: InvalidLength unless there is one octet; by DER the constraint InvalidBoolean for another octet than 00 and
/// ff.
pub fn read_bool(rules: Rules, octets: &[u8]) -> Result<bool, BerError>
    ensures { Decodes (λ v. v) (booleans rules) octets.now result }
{
    let [octet] = octets else {
        return Err(BerError::InvalidLength);
    };
    match rules {
        Rules::Ber => Ok(*octet != 0x00),
        Rules::Der => read_strict_octet(*octet),
    }
}

/// The value of a BOOLEAN's octet by DER, 00 or ff.
fn read_strict_octet(octet: u8) -> Result<bool, BerError>
    ensures { Decodes (λ v. v) (booleans Rules.Der) (octet ∷ []) result }
{
    match octet {
        0x00 => Ok(false),
        0xff => Ok(true),
        _ => Err(BerError::DerConstraintFailed(DerConstraint::InvalidBoolean)),
    }
}

/// Checks the octets of a NULL. By DER there must be none (8.8.2), else InvalidLength.
pub fn read_null(rules: Rules, octets: &[u8]) -> Result<(), BerError>
    ensures { Decodes (λ v. v) (nulls rules) octets.now result }
{
    match rules {
        Rules::Ber => Ok(()),
        Rules::Der if octets.is_empty() => Ok(()),
        Rules::Der => Err(BerError::InvalidLength),
    }
}
