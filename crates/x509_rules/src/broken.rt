//! The rules that a certificate breaks.
ghost use Rattle.std.specs.Prelude.{◌≡◌, ◌<◌, ◌^◌, length};
ghost use Rattle.std.specs.Iterator.{at_most};
ghost use Rattle.x509.specs.Certificates.{certificate_of};
ghost use Rattle.x509_rules.specs.Broken.{FindsBroken, YieldsBroken, certificate_in, rules_left};
ghost use Rattle.x509_rules.specs.Examined.{IsExamined, signed_of};

use crate::certificate::{Rule, breaks_examined};
use crate::examined::{Examined, examine_for};
use x509::Certificate;

/// The rules, of a list, that a certificate breaks, in the order of the list.
#[derive(Clone, Copy)]
pub struct BrokenRules<'r, 'a> {
    certificate: &'r Certificate<'a>,
    left: &'r [Rule],
}

/// A broken rule, and the rules after it.
#[derive(Clone, Copy)]
pub struct FirstBroken<'r> {
    pub rule: Rule,
    pub rest: &'r [Rule],
}

/// The rules of the list that the certificate breaks, in order. The list is `MUST_RULES`, `SHOULD_RULES` or your own.
/// The certificate is examined anew after each. `examine` and `first_broken` examine it once.
///
/// ```
/// for rule in broken_rules(&certificate, MUST_RULES) {
///     println!(rt; "{rule}")?;
/// }
/// ```
pub fn broken_rules<'r, 'a>(
    certificate: &'r Certificate<'a>,
    rules: &'r [Rule],
) -> BrokenRules<'r, 'a>
    ensures certificate { certificate_in result ≡ certificate_of certificate.now }
    ensures rules { rules_left result ≡ rules.now }
    ensures few { length (rules_left result) < 2 ^ 64 }
{
    // Callers that count need to know that there are fewer than 2^64.
    let _count = rules.len();
    BrokenRules {
        certificate,
        left: rules,
    }
}

impl<'r, 'a> Iterator for BrokenRules<'r, 'a> {
    type Item = Rule;

    ghost next_gives = { YieldsBroken };

    ghost remaining = { λ s. at_most (length (rules_left s)) };

    fn next(&mut self) -> Option<Rule> {
        let first = find_broken(self.certificate, self.left)?;
        self.left = first.rest;
        Some(first.rule)
    }
}

/// Returns the first rule that the certificate breaks.
fn find_broken<'r>(certificate: &Certificate<'_>, rules: &'r [Rule]) -> Option<FirstBroken<'r>>
    ensures { FindsBroken (certificate_of certificate.now) rules.now result }
{
    let examined = examine_for(certificate, rules.len());
    first_broken(&examined, rules)
}

/// Returns the first rule of the list that an examined certificate breaks, and the rules after it.
///
/// ```
/// let examined = examine(&certificate);
/// let mut left = MUST_RULES;
/// while let Some(broken) = first_broken(&examined, left) {
///     println!(rt; "{}", broken.rule)?;
///     left = broken.rest;
/// }
/// ```
pub fn first_broken<'r>(
    certificate: &Examined<'_, '_>,
    rules: &'r [Rule],
) -> Option<FirstBroken<'r>>
    requires { IsExamined certificate.now }
    ensures { FindsBroken (signed_of certificate.now) rules.now result }
{
    let mut left = rules;
    while let Some((rule, rest)) = left.split_first() {
        if breaks_examined(*rule, certificate) {
            return Some(FirstBroken { rule: *rule, rest });
        }
        left = rest;
    }
    None
}
