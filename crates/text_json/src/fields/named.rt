//! How an input matches the type that names its elements.
ghost use Rattle.std.specs.Prelude.{◌≡◌, if◌then◌else◌, MatchOption};

use der_elements::{ElementError, Walk};

/// How an input matches the type that names its elements.
#[derive(Drop)]
pub enum Named<'a> {
    /// The input has the type: it is valid, each element is in the type, and no mandatory component is missing.
    Whole,
    /// The input is valid and each element is in the type, but a mandatory component is missing.
    Lacks,
    /// The input is valid, but an element isn't in the type. This is the offset of the first one.
    Left(usize),
    /// The input isn't valid BER or DER.
    Refused(RefusedInput<'a>),
}

/// Where and why an input isn't valid BER or DER.
#[derive(Drop)]
pub struct RefusedInput<'a> {
    /// The walk where it stopped. It gives the path and the reason of the error.
    pub walk: Walk<'a>,
    pub refusal: ElementError,
    /// The offset of the first element before the error that isn't in the type.
    pub left: Option<usize>,
}

/// How a valid input matches the type: by the offset of the first element that isn't in it, or else by whether all
/// mandatory components are there.
pub(crate) fn ended<'a>(left: Option<usize>, is_whole: bool) -> Named<'a>
    ensures { MatchOption left
        (result ≡ (if is_whole then Named.Whole else Named.Lacks))
        (λ offset. result ≡ Named.Left offset) }
{
    match left {
        Some(offset) => Named::Left(offset),
        None if is_whole => Named::Whole,
        None => Named::Lacks,
    }
}

/// How an input that isn't valid matches the type. The walk stopped with this error.
pub(crate) fn refused<'a>(walk: Walk<'a>, refusal: ElementError, left: Option<usize>) -> Named<'a>
    ensures { result ≡ Named.Refused (record { walk = walk.entry; refusal = refusal; left = left }) }
{
    Named::Refused(RefusedInput {
        walk,
        refusal,
        left,
    })
}
