//! Tags for C.
ghost use Rattle.std.specs.Prelude.{◌≡◌};
ghost use Rattle.c_values.specs.Writers.{class_of, implicit_of};

use der_base::header::{Class, Tag};

/// The implicit tag of the next element.
pub fn implicit_of(implicit: u32, number: u32) -> Option<(Class, Tag)>
    ensures { result ≡ implicit_of implicit number }
{
    match implicit {
        0 => None,
        1 => Some((Class::Universal, Tag(number))),
        2 => Some((Class::Application, Tag(number))),
        3 => Some((Class::ContextSpecific, Tag(number))),
        _ => Some((Class::Private, Tag(number))),
    }
}

/// The class with this number (X.690 8.1.2.2). Numbers above 2 are the last class.
pub fn class_of(number: u8) -> Class
    ensures { result ≡ class_of number }
{
    match number {
        0 => Class::Universal,
        1 => Class::Application,
        2 => Class::ContextSpecific,
        _ => Class::Private,
    }
}
