//! The one argument of `derdump`.
ghost use Rattle.std.specs.Prelude.{◌≡◌, ◌≢◌, [], ◌∷◌, IfSome, IfNone, length};
ghost use Rattle.std.specs.Vec.Iter.{into_iter_items};

use std::env;
use std::env::{Args, Env};

/// The argument, if there is exactly one. None if an argument isn't UTF-8.
pub fn only_argument<R: Env + AllocGlobal>(rt: &R) -> Option<String> {
    second_of_two(env::args(rt).ok()?)
}

/// The second of two arguments. The first is the program's name.
fn second_of_two(mut arguments: Args) -> Option<String>
    ensures some { IfSome result (λ word. (name : _) × (into_iter_items arguments ≡ name ∷ word ∷ [])) }
    ensures none { IfNone result (length (into_iter_items arguments) ≢ 2) }
{
    let _program = arguments.next()?;
    let word = arguments.next()?;
    match arguments.next() {
        None => Some(word),
        Some(_) => None,
    }
}
