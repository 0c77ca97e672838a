//! Tests the rules in the text of RFC 5280 that the octets of a certificate show, and in `crl` those of a CRL. `x509`
//! reads both by the ASN.1.
#![tactic(auto)]

mod broken;
mod certificate;
pub mod crl;
mod display;
mod examined;
mod issuers;
mod whole;

pub use broken::{BrokenRules, FirstBroken, broken_rules, first_broken};
pub use certificate::{MUST_RULES, Rule, SHOULD_RULES, breaks, breaks_examined};
pub use der_extensions::KnownExtension;
pub use examined::{Examined, examine};
pub use whole::WholeRule;
pub use x509_rule_facts::algorithms::AlgorithmRule;
pub use x509_rule_facts::attributes::{AttributeKind, StringKind};
pub use x509_rule_facts::types::ValueType;
pub use x509_rule_facts::value_facts::ValueFact;
pub use x509_value_rules::facts::Fact;
pub use x509_value_rules::names::NameRule;
pub use x509_value_rules::notices::{NoticeRule, QualifierRule};
pub use x509_value_rules::points::PointRule;
pub use x509_value_rules::subtrees::SubtreeRule;
pub use x509_value_rules::value_rules::ValueRule;
