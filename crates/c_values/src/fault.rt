//! Faults of field readers, for C.
ghost use Rattle.std.specs.Prelude.{◌≡◌};
ghost use Rattle.c_values.specs.Faults.{field_fault, needed_of, needed_size, no_fault, reason_numbers, rule_fault};

use crate::element::bit;
use crate::errors::{refusal_number, rule_number};
use der_base::error::{BerError, Err, Needed};
use der_cursor::ReadError;
use x509::Rule;

/// The fault of a field reader. If the status is 0, all other fields are 0.
#[repr(C)]
#[derive(Clone, Copy)]
pub struct DmFault {
    /// The offset in the input of the element that shows the error.
    pub offset: usize,
    /// The offset of the end of the list that the element is in; 0 if it is in none.
    pub list_end: usize,
    /// The number of octets that a cut element needs; 0 if unknown.
    pub needed: usize,
    /// 0 for success, 1 for an error, 2 if the input is cut.
    pub status: u32,
    /// The number of the error, if the status is 1.
    pub error: u32,
    /// The number of the first invalid field; 0 if the reader has no fields.
    pub field: u32,
    /// 1 if the element is in a list, else 0.
    pub is_in_list: u32,
}

/// The field number of the certificate itself.
pub(crate) const CERTIFICATE: u32 = 1;

/// The number of the first field of a CRL. The others follow in the order of its `Field`.
pub const FIRST_LIST_FIELD: u32 = 32;

/// The number of the first field of a CSR. The others follow in the order of its `Field`.
pub const FIRST_REQUEST_FIELD: u32 = 64;

/// The number of the first field of a private key: the key itself.
pub const FIRST_KEY_FIELD: u32 = 96;

/// The number of the first field of an RSA private key.
pub const FIRST_RSA_FIELD: u32 = 112;

/// The number of the first field of an elliptic private key.
pub const FIRST_EC_FIELD: u32 = 128;

/// The number of the first field of an encrypted private key.
pub const FIRST_ENCRYPTED_FIELD: u32 = 144;

/// The number of the first field of a public key.
pub const FIRST_PUBLIC_FIELD: u32 = 160;

/// The number of the first field of an RSA public key.
pub const FIRST_RSA_PUBLIC_FIELD: u32 = 176;

/// The fault of a success.
pub fn no_fault() -> DmFault
    ensures { result ≡ no_fault }
{
    DmFault {
        offset: 0,
        list_end: 0,
        needed: 0,
        status: 0,
        error: 0,
        field: 0,
        is_in_list: 0,
    }
}

/// The fault of the field with this number.
pub fn field_fault(field: u32, refusal: ReadError<BerError>) -> DmFault
    ensures { result ≡ field_fault field refusal }
{
    let (status, error, needed) = reason_numbers(refusal.reason);
    DmFault {
        offset: refusal.offset,
        list_end: refusal.list_end.unwrap_or(0),
        needed,
        status,
        error,
        field,
        is_in_list: bit(refusal.list_end.is_some()).into(),
    }
}

/// The status, the number of the error, and the number of octets that are needed.
fn reason_numbers(reason: Err<BerError>) -> (u32, u32, usize)
    ensures { result ≡ reason_numbers reason }
{
    match reason {
        Err::Error(e) => (1, refusal_number(e), needed_of(e)),
        Err::Incomplete(needed) => (2, 0, needed_size(needed)),
        // No reader here returns any of these.
        Err::Failure(_) | Err::OutOfMemory => (1, 0, 0),
    }
}

/// The number of octets that an element needs if it runs past the end of its list.
fn needed_of(e: BerError) -> usize
    ensures { result ≡ needed_of e }
{
    match e {
        BerError::Incomplete(needed) => needed_size(needed),
        _ => 0,
    }
}

/// The number of octets that are needed; 0 if unknown.
fn needed_size(needed: Needed) -> usize
    ensures { result ≡ needed_size needed }
{
    match needed {
        Needed::Size(n) => n,
        Needed::Unknown => 0,
    }
}

/// The fault of a certificate that breaks a rule.
pub fn rule_fault(rule: Rule) -> DmFault
    ensures { result ≡ rule_fault rule }
{
    DmFault {
        offset: 0,
        list_end: 0,
        needed: 0,
        status: 1,
        error: rule_number(rule),
        field: CERTIFICATE,
        is_in_list: 0,
    }
}
