//! Tests the rules in the text of RFC 5280 that the octets of a CRL show. `x509::crl` reads CRLs by the ASN.1.
mod display;
mod entries;
mod examined;
mod fields;
mod marks;
mod revoked;
mod whole_list;

pub use der_extensions::KnownExtension;
pub use entries::EntryRule;
pub use examined::{ExaminedList, examine_list};
pub use revoked::{
    BrokenListRules, FirstBrokenOfList, ListRule, MUST_LIST_RULES, SHOULD_LIST_RULES,
    broken_list_rules, examined_list_breaks, first_broken_of_list, list_breaks,
};
pub use whole_list::WholeListRule;
pub use x509_rule_facts::types::ValueType;
pub use x509_rule_facts::value_facts::ValueFact;
pub use x509_value_rules::facts::Fact;
pub use x509_value_rules::issuing_point::IssuingPointRule;
pub use x509_value_rules::names::NameRule;
pub use x509_value_rules::points::PointRule;
pub use x509_value_rules::value_rules::ValueRule;
