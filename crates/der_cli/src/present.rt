//! The current time.
ghost use Rattle.std.specs.Prelude.{◌≡◌, ◌≢◌, Some, ℕ};
ghost use Rattle.der_actions.specs.declared.options.Action.{Action};

use der_actions::options::{Action, Options};
use std::time::Clock;

/// The options with the current time by the clock, if they need it and don't have it. If the clock can't be read, they
/// stay without it.
pub(crate) fn at_present<'a, R: Clock>(rt: &R, options: Options<'a>) -> Options<'a>
    ensures given { (n : ℕ) → options.entry.present ≡ Some n → result ≡ options.entry }
    ensures others { options.entry.action ≢ Action.Show → result ≡ options.entry }
    ensures present { result ≡ record options.entry { present = result.present } }
{
    if options.action != Action::Show || options.present.is_some() {
        return options;
    }
    Options {
        present: seconds(rt),
        ..options
    }
}

/// The seconds since 1970-01-01 00:00:00 UTC. None if the clock can't be read.
fn seconds<R: Clock>(rt: &R) -> Option<u64> {
    match rt.since_1970() {
        Ok(time) => Some(time.as_secs()),
        Err(_) => None,
    }
}
