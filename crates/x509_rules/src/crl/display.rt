//! The texts of broken rules of CRLs, with the section of RFC 5280.

use crate::crl::entries::EntryRule;
use crate::crl::revoked::ListRule;
use crate::crl::whole_list::WholeListRule;
use der_extensions::KnownExtension;
use std::fmt;
use x509_value_rules::display::value_text;

/// The text of a broken rule, with its section: "cRLNumber is critical (RFC 5280 5.2.3)".
impl fmt::Display for ListRule {
    fn fmt<W: fmt::Write>(&self, f: &mut fmt::Formatter<W>) -> fmt::Result {
        match self {
            ListRule::Critical(known) => {
                write!(f, "{known} isn't critical ({})", list_section(*known))
            }
            ListRule::NotCritical(known) => {
                write!(f, "{known} is critical ({})", list_section(*known))
            }
            ListRule::Value(known, rule) => write!(f, "{known}: {}", value_text(*rule)),
            ListRule::Entry(rule) => write!(f, "an entry: {rule}"),
            ListRule::Whole(rule) => f.write_str(whole_list_text(*rule)),
        }
    }
}

/// The text of a broken rule of an entry, with its section.
impl fmt::Display for EntryRule {
    fn fmt<W: fmt::Write>(&self, f: &mut fmt::Formatter<W>) -> fmt::Result {
        match self {
            EntryRule::PositiveSerialNumber => {
                f.write_str("its serial number isn't positive (RFC 5280 4.1.2.2)")
            }
            EntryRule::ShortSerialNumber => {
                f.write_str("its serial number has more than 20 octets (RFC 5280 4.1.2.2)")
            }
            EntryRule::UtcTimeTo2049 => {
                f.write_str("its date before 2050 is a GeneralizedTime (RFC 5280 5.1.2.6)")
            }
            EntryRule::WholeSeconds => {
                f.write_str("its date has a fraction of a second (RFC 5280 5.1.2.6)")
            }
            EntryRule::DistinctExtensions => {
                f.write_str(
                    "an extension of it comes twice, or it has more than 512 (RFC 5280 5.3, 4.2)",
                )
            }
            EntryRule::Without(known, fact) => { write!(f, "{known} {fact} ({})", known.section()) }
        }
    }
}

/// The section of an extension of a CRL.
fn list_section(known: KnownExtension) -> &'static str {
    match known {
        KnownExtension::AuthorityKeyIdentifier => "RFC 5280 5.2.1",
        KnownExtension::IssuerAltName => "RFC 5280 5.2.2",
        KnownExtension::FreshestCrl => "RFC 5280 5.2.6",
        KnownExtension::AuthorityInfoAccess => "RFC 5280 5.2.7",
        _ => known.section(),
    }
}

fn whole_list_text(rule: WholeListRule) -> &'static str {
    match rule {
        WholeListRule::SameAlgorithms => "the signature algorithms differ (RFC 5280 5.1.1.2)",
        WholeListRule::SecondVersion => "extensions before version 2 (RFC 5280 5.1.2.1)",
        WholeListRule::NamedIssuer => "the issuer has no name (RFC 5280 5.1.2.3)",
        WholeListRule::OrderedAttributes =>
            "attributes of a relative name are out of order (X.690 11.6)",
        WholeListRule::TypedAttributes =>
            "an attribute of the issuer isn't of its type (RFC 5280 A.1)",
        WholeListRule::DerValues => "a value of any type isn't in DER (X.690 10)",
        WholeListRule::UtcTimeTo2049 =>
            "a date before 2050 is a GeneralizedTime (RFC 5280 5.1.2.4)",
        WholeListRule::WholeSeconds => "a date has a fraction of a second (RFC 5280 5.1.2.4)",
        WholeListRule::NextUpdate => "there is no nextUpdate (RFC 5280 5.1.2.5)",
        WholeListRule::DistinctExtensions =>
            "an extension comes twice, or there are more than 512 (RFC 5280 5.2, 4.2)",
        WholeListRule::SomeEntries => "revokedCertificates is empty (RFC 5280 5.1.2.6)",
        WholeListRule::KeyIdentifierOfIssuer => {
            "no authorityKeyIdentifier has a keyIdentifier (RFC 5280 5.2.1)"
        }
        WholeListRule::Number => "there is no cRLNumber (RFC 5280 5.2.3)",
        WholeListRule::FreshestOfComplete => "a freshestCRL in a list of changes (RFC 5280 5.2.6)",
        WholeListRule::RemovalOfDelta => {
            "removeFromCRL in a list that is none of changes (RFC 5280 5.3.1)"
        }
    }
}
