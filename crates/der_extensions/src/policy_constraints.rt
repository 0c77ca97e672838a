//! PolicyConstraints and InhibitAnyPolicy: from where on in a path there are stricter rules for policies (RFC 5280
//! 4.2.1.11, 4.2.1.14).
ghost use Rattle.std.specs.Prelude.{pos};
ghost use Rattle.std.specs.Option.{option_map};
ghost use Rattle.der_base.specs.declared.rules.Rules.{Rules};
ghost use Rattle.der_cursor.specs.Formats.{Implicit, Never, Only, Optional, ReadsField, ReadsInput, ReadsWhole};
ghost use Rattle.der_cursor.specs.Formats.{Required};
ghost use Rattle.der_extensions.specs.PolicyExtensions.{PolicyConstraints as ConstraintsFormat, SkipCerts};
ghost use Rattle.der_extensions.specs.PolicyExtensions.{policy_constraints_of};

use der_base::error::BerError;
use der_base::header::{Class, Tag};
use der_cursor::{Cursor, ReadError};

/// The value of the extension PolicyConstraints. Each field is the number of certificates that may follow this one in a
/// path before its rule applies.
#[derive(Clone, Copy, PartialEq)]
pub struct PolicyConstraints {
    /// The rule: every certificate needs an acceptable policy.
    pub require_explicit_policy: Option<u32>,
    /// The rule: policies aren't mapped any more.
    pub inhibit_policy_mapping: Option<u32>,
}

/// Reads the value of a PolicyConstraints by DER. Trailing data is an error, and so is a number above 2^32-1. A value
/// with neither field is allowed.
pub fn read_policy_constraints(octets: &[u8]) -> Result<PolicyConstraints, ReadError<BerError>>
    ensures { ReadsInput Rules.Der ConstraintsFormat policy_constraints_of Never octets.now result }
{
    match read_whole_constraints(octets) {
        Ok(constraints) => Ok(constraints),
        Err(e) => Err(e.of_element(Cursor::new(octets), Class::Universal, true, Tag::Sequence)),
    }
}

fn read_whole_constraints(octets: &[u8]) -> Result<PolicyConstraints, ReadError<BerError>>
    ensures { ReadsWhole (Only (Required ConstraintsFormat) Rules.Der octets.now) policy_constraints_of Never result }
{
    let mut input = Cursor::new(octets);
    let constraints = read_constraints(&mut input)?;
    input.end()?;
    Ok(constraints)
}

fn read_constraints(input: &mut Cursor<'_>) -> Result<PolicyConstraints, ReadError<BerError>>
    ensures { ReadsField (Required ConstraintsFormat) policy_constraints_of Never input.old result input.new }
{
    let mut fields = input.open_sequence()?;
    let require_explicit_policy = read_number(&mut fields, 0)?;
    let inhibit_policy_mapping = read_number(&mut fields, 1)?;
    fields.end()?;
    Ok(PolicyConstraints {
        require_explicit_policy,
        inhibit_policy_mapping,
    })
}

/// Reads a SkipCerts under an implicit tag with this number, if it is next.
fn read_number(fields: &mut Cursor<'_>, number: u32) -> Result<Option<u32>, ReadError<BerError>>
    ensures { ReadsField (Optional (Implicit number SkipCerts)) (λ x. option_map pos x) Never
        fields.old result fields.new }
{
    fields.implicit(number).optional_u32()
}

/// Reads the value of an InhibitAnyPolicy by DER: how many certificates may follow this one in a path before anyPolicy
/// no longer counts. Trailing data is an error, and so is a number above 2^32-1.
pub fn read_inhibit_any_policy(octets: &[u8]) -> Result<u32, ReadError<BerError>>
    ensures { ReadsInput Rules.Der SkipCerts pos Never octets.now result }
{
    match read_whole_number(octets) {
        Ok(number) => Ok(number),
        Err(e) => Err(e.of_element(Cursor::new(octets), Class::Universal, false, Tag::Integer)),
    }
}

fn read_whole_number(octets: &[u8]) -> Result<u32, ReadError<BerError>>
    ensures { ReadsWhole (Only (Required SkipCerts) Rules.Der octets.now) pos Never result }
{
    let mut input = Cursor::new(octets);
    let number = input.u32()?;
    input.end()?;
    Ok(number)
}
