//! Calls that name the rules of RFC 5280 that a certificate or a CRL breaks.
ghost use Rattle.std.specs.Prelude.{◌≡◌, List, ℕ};
ghost use Rattle.c_formats.specs.Certificates.{certificate_fault};
ghost use Rattle.c_formats.specs.RevokedLists.{list_fault};
ghost use Rattle.c_formats.specs.Rules.{HasBroken, ListHasBroken, rule_kind};
ghost use Rattle.c_values.specs.Faults.{Reads};
ghost use Rattle.c_values.specs.Texts.{PutsText};
ghost use Rattle.x509.specs.Certificates.{ReadsCertificate};
ghost use Rattle.x509.specs.Crl.Lists.{certificate_list_of, field_fault as crl_fault, whole_list};
ghost use Rattle.x509.specs.Readers.{ReadsExactly};

use c_formats::rules::{rule_kind, words_of_rule, write_broken, write_broken_of_list};
use c_values::fault::DmFault;
use c_values::text::put_text;
use x509::crl::read_certificate_list;
use x509::read_certificate;

/// Reads a certificate by DER, as `dm_read_certificate`, and writes the numbers of the rules that it breaks, as far as
/// the capacity allows. `count` is how many there are. Returns the fault's status.
#[unsafe(no_mangle)]
pub extern "C" fn dm_broken_rules(
    input: &[u8],
    rules: &mut [u32],
    count: &mut usize,
    fault: &mut DmFault,
) -> u32
    ensures exactly { Reads (ReadsCertificate input.now) (HasBroken rules.old) certificate_fault (rules.old, count.old)
        (rules.new, count.new) fault.new }
    ensures status { result ≡ fault.new.status }
{
    *fault = write_broken(read_certificate(input), rules, count);
    fault.status
}

/// As `dm_broken_rules`, of a CRL.
#[unsafe(no_mangle)]
pub extern "C" fn dm_broken_crl_rules(
    input: &[u8],
    rules: &mut [u32],
    count: &mut usize,
    fault: &mut DmFault,
) -> u32
    ensures exactly { Reads (ReadsExactly crl_fault certificate_list_of whole_list input.now) (ListHasBroken rules.old)
        list_fault (rules.old, count.old) (rules.new, count.new) fault.new }
    ensures status { result ≡ fault.new.status }
{
    *fault = write_broken_of_list(read_certificate_list(input), rules, count);
    fault.status
}

/// Writes the sentence of the rule with this number. Returns its length; 0 if there is no such rule.
#[unsafe(no_mangle)]
pub extern "C" fn dm_rule_text(rule: u32, text: &mut [u8]) -> usize
    ensures { (words : List ℕ) × PutsText text.old 0 words text.new result }
{
    put_text(text, 0, words_of_rule(rule).as_str().as_bytes())
}

/// Returns 1 if the rule with this number is one of MUST, 2 if of SHOULD, 0 if there is no such rule.
#[unsafe(no_mangle)]
pub extern "C" fn dm_rule_kind(rule: u32) -> u32
    ensures { result ≡ rule_kind rule }
{
    rule_kind(rule)
}
