//! The parameters of algorithms (RFC 3279, RFC 4055, RFC 5480, RFC 5758, RFC 8410).
ghost use Rattle.std.specs.Prelude.{◌≡◌, ◌⊎◌, ◌↔◌, ◌≤◌, IsTrue};
ghost use Rattle.x509.specs.Certificates.{algorithm_of, certificate_of};
ghost use Rattle.x509_rule_facts.specs.Algorithms.{BeginsIdentifier, BreaksAlgorithm, BreaksInKey, BreaksInSignature};
ghost use Rattle.x509_rule_facts.specs.Algorithms.{BreaksParameters, IsBelow, IsCurve, IsDsa, IsEcdsa, IsEdwards};
ghost use Rattle.x509_rule_facts.specs.Algorithms.{IsPss, IsRsa};

use x509::{AlgorithmIdentifier, Certificate, absolute_octets};

/// A rule about the parameters of a certificate's algorithms: of the signature, which is given twice, and of the key
/// (RFC 5280 4.1.1.2, 4.1.2.7).
#[derive(Clone, Copy, Debug, PartialEq)]
pub enum AlgorithmRule {
    /// The parameters of an RSA key, and of a signature of RSA that isn't RSASSA-PSS, are NULL (RFC 3279 2.2.1 and
    /// 2.3.1, RFC 4055 5, MUST).
    NullOfRsa,
    /// A signature of DSA or ECDSA has no parameters (RFC 3279 2.2.2 and 2.2.3, RFC 5758 3, MUST).
    NoneOfSignature,
    /// X25519, X448, Ed25519 and Ed448 have no parameters (RFC 8410 3, MUST).
    NoneOfEdwards,
    /// A key of an elliptic curve names its curve (RFC 5480 2.1.1, MUST).
    NamedCurve,
    /// A signature of RSASSA-PSS has parameters (RFC 4055 3.1, MUST).
    SomeOfPss,
}

/// The content octets of pkcs-1, 1.2.840.113549.1.1.
const PKCS_1: &[u8] = b"\x2a\x86\x48\x86\xf7\x0d\x01\x01";

/// 1.2.840.10040.4, the arc above DSA with SHA-1.
const DSA: &[u8] = b"\x2a\x86\x48\xce\x38\x04";

/// sigAlgs, 2.16.840.1.101.3.4.3, the arc above DSA with SHA-224 and SHA-256.
const DSA_WITH_SHA2: &[u8] = b"\x60\x86\x48\x01\x65\x03\x04\x03";

/// id-ecSigType, 1.2.840.10045.4, the arc above ECDSA with SHA-1.
const ECDSA: &[u8] = b"\x2a\x86\x48\xce\x3d\x04";

/// ecdsa-with-SHA2, 1.2.840.10045.4.3.
const ECDSA_WITH_SHA2: &[u8] = b"\x2a\x86\x48\xce\x3d\x04\x03";

/// id-edwards-curve-algs, 1.3.101.
const EDWARDS: &[u8] = b"\x2b\x65";

/// id-publicKeyType, 1.2.840.10045.2.
const CURVE_KEY: &[u8] = b"\x2a\x86\x48\xce\x3d\x02";

/// 1.3.132.1, the arc above id-ecDH and id-ecMQV.
const CURVE_SCHEMES: &[u8] = b"\x2b\x81\x04\x01";

/// The encoding of NULL.
const NULL: &[u8] = b"\x05\x00";

/// The identifier octet of an OBJECT IDENTIFIER.
const OBJECT_IDENTIFIER: u8 = 0x06;

/// Returns whether the certificate breaks the rule.
#[inline(never)]
pub fn breaks_algorithm(rule: AlgorithmRule, certificate: &Certificate<'_>) -> bool
    ensures { IsTrue result ↔ BreaksAlgorithm rule (certificate_of certificate.now) }
{
    match rule {
        AlgorithmRule::NullOfRsa => breaks_anywhere(AlgorithmRule::NullOfRsa, certificate),
        AlgorithmRule::NoneOfSignature => {
            breaks_in_signature(AlgorithmRule::NoneOfSignature, certificate)
        }
        AlgorithmRule::NoneOfEdwards => breaks_anywhere(AlgorithmRule::NoneOfEdwards, certificate),
        AlgorithmRule::NamedCurve => breaks_in_key(AlgorithmRule::NamedCurve, certificate),
        AlgorithmRule::SomeOfPss => breaks_in_signature(AlgorithmRule::SomeOfPss, certificate),
    }
}

/// Whether an algorithm of the signature or of the key breaks the rule.
fn breaks_anywhere(rule: AlgorithmRule, certificate: &Certificate<'_>) -> bool
    ensures { IsTrue result ↔ (BreaksInSignature rule (certificate_of certificate.now)
        ⊎ BreaksInKey rule (certificate_of certificate.now)) }
{
    breaks_in_signature(rule, certificate) || breaks_in_key(rule, certificate)
}

/// Whether an algorithm of the signature breaks the rule.
fn breaks_in_signature(rule: AlgorithmRule, certificate: &Certificate<'_>) -> bool
    ensures { IsTrue result ↔ BreaksInSignature rule (certificate_of certificate.now) }
{
    breaks_parameters(rule, &certificate.signature_algorithm)
        || breaks_parameters(rule, &certificate.tbs_certificate.signature)
}

/// Whether the algorithm of the key breaks the rule.
fn breaks_in_key(rule: AlgorithmRule, certificate: &Certificate<'_>) -> bool
    ensures { IsTrue result ↔ BreaksInKey rule (certificate_of certificate.now) }
{
    let key = &certificate.tbs_certificate.subject_public_key_info;
    breaks_parameters(rule, &key.algorithm)
}

/// Whether the parameters of an algorithm break the rule.
fn breaks_parameters(rule: AlgorithmRule, algorithm: &AlgorithmIdentifier<'_>) -> bool
    ensures { IsTrue result ↔ BreaksParameters rule (algorithm_of algorithm.now) }
{
    let octets = absolute_octets(&algorithm.algorithm);
    let parameters = algorithm.parameters;
    match rule {
        AlgorithmRule::NullOfRsa => is_rsa(octets) && parameters != NULL,
        AlgorithmRule::NoneOfSignature => {
            (is_dsa(octets) || is_ecdsa(octets)) && !parameters.is_empty()
        }
        AlgorithmRule::NoneOfEdwards => is_edwards(octets) && !parameters.is_empty(),
        AlgorithmRule::NamedCurve => is_curve(octets) && !begins_identifier(parameters),
        AlgorithmRule::SomeOfPss => is_pss(octets) && parameters.is_empty(),
    }
}

fn is_rsa(octets: &[u8]) -> bool
    ensures { IsTrue result ↔ IsRsa octets.now }
{
    is_below(PKCS_1, 1, 2, octets)
        || is_below(PKCS_1, 4, 5, octets)
        || is_below(PKCS_1, 11, 14, octets)
}

fn is_pss(octets: &[u8]) -> bool
    ensures { IsTrue result ↔ IsPss octets.now }
{
    is_below(PKCS_1, 10, 10, octets)
}

fn is_dsa(octets: &[u8]) -> bool
    ensures { IsTrue result ↔ IsDsa octets.now }
{
    is_below(DSA, 3, 3, octets) || is_below(DSA_WITH_SHA2, 1, 2, octets)
}

fn is_ecdsa(octets: &[u8]) -> bool
    ensures { IsTrue result ↔ IsEcdsa octets.now }
{
    is_below(ECDSA, 1, 1, octets) || is_below(ECDSA_WITH_SHA2, 1, 4, octets)
}

fn is_edwards(octets: &[u8]) -> bool
    ensures { IsTrue result ↔ IsEdwards octets.now }
{
    is_below(EDWARDS, 110, 113, octets)
}

fn is_curve(octets: &[u8]) -> bool
    ensures { IsTrue result ↔ IsCurve octets.now }
{
    is_below(CURVE_KEY, 1, 1, octets) || is_below(CURVE_SCHEMES, 12, 13, octets)
}

/// Whether an identifier is these arcs and one more, from `low` to `high`.
fn is_below(arcs: &[u8], low: u8, high: u8, octets: &[u8]) -> bool
    ensures { IsTrue result ↔ IsBelow arcs.now low high octets.now }
{
    match octets.split_last() {
        Some((last, before)) => is_within(*last, low, high) && are_same(before, arcs),
        None => false,
    }
}

fn are_same(one: &[u8], other: &[u8]) -> bool
    ensures { IsTrue result ↔ (one.now ≡ other.now) }
{
    one == other
}

fn is_within(number: u8, low: u8, high: u8) -> bool
    ensures { IsTrue result ↔ (low ≤ number) × (number ≤ high) }
{
    low <= number && number <= high
}

/// Whether an element is an OBJECT IDENTIFIER.
fn begins_identifier(element: &[u8]) -> bool
    ensures { IsTrue result ↔ BeginsIdentifier element.now }
{
    match element.split_first() {
        Some((first, _)) => *first == OBJECT_IDENTIFIER,
        None => false,
    }
}
