//! Octets of an input for C.

/// A slice of an input.
#[repr(C)]
#[derive(Clone, Copy)]
pub struct DmOctets<'a> {
    /// The octets. In C these are two fields, a pointer and the length.
    pub octets: &'a [u8],
}
