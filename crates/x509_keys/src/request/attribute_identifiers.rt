//! The arcs of attribute identifiers, for `HasArcs` of `der_values`:
//! `attribute.identifier.is(attribute_identifiers::EXTENSION_REQUEST)`.

/// pkcs-9-at-extensionRequest (RFC 2985 5.4.2).
pub const EXTENSION_REQUEST: &[u64] = &[1, 2, 840, 113549, 1, 9, 14];

/// pkcs-9-at-challengePassword (RFC 2985 5.4.1).
pub const CHALLENGE_PASSWORD: &[u64] = &[1, 2, 840, 113549, 1, 9, 7];
