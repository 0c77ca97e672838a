//! Types of ASN.1 as constant data (X.680), and macros that write them.
use crate::words::Words;
pub use der_base::header::Class;

/// A type that an input may have.
#[derive(Clone, Copy)]
pub struct Schema<'a> {
    /// The name in the document that defines the type, such as `Certificate`.
    pub name: &'static str,
    /// The elements of an input of this type.
    pub components: &'static [Component],
    /// The types that components refer to by index, each with its name.
    pub types: &'a [&'static Component],
}

/// Whether an encoding is primitive or constructed (X.690 8.1.2.5).
#[derive(Clone, Copy, Debug, PartialEq)]
pub enum Form {
    Primitive,
    Constructed,
    /// Either one, such as a string by BER (X.690 8.6, 8.7, 8.23).
    Either,
}

/// Whether the content octets of an element may be printed.
#[derive(Clone, Copy, Debug, PartialEq)]
pub enum Secrecy {
    Public,
    /// Not if no element inside is visited, such as in a constructed string, since a private key may be in it.
    SecretUnread,
    /// Never: they are a private key, or contain one.
    Secret,
}

/// A component of a SEQUENCE or SET (X.680 25, 27), an item of a list (26, 28), an alternative of a CHOICE (29), or an
/// element of an input.
#[cycle(schema)]
#[derive(Clone, Copy)]
pub struct Component {
    /// The identifier, or empty.
    pub name: &'static str,
    /// Whether the component is OPTIONAL or has a DEFAULT.
    pub optional: bool,
    /// Whether an element that matches this component is secret, whatever its type and its name.
    pub secrecy: Secrecy,
    pub kind: Type,
    /// How the element is shown in words. None: as is said around it, or not at all.
    pub words: Option<&'static Words>,
}

/// How a type is encoded.
#[cycle(schema)]
#[derive(Clone, Copy)]
pub enum Type {
    /// Any element.
    Any,
    /// An element with this tag and form. The tag is that of a universal type, an implicit one, or an explicit one,
    /// which has one component inside (X.690 8.14).
    Tagged(Class, u32, Form, Inside),
    /// One of these alternatives, each with a tag.
    Choice(&'static [Component]),
    /// What the last identifier selects, or any element if it selects nothing.
    Selected,
    /// The type with this index in the schema. An element has the name of the component, or of the type if that has
    /// none.
    Numbered(usize),
}

/// The elements inside an element.
#[cycle(schema)]
#[derive(Clone, Copy)]
pub enum Inside {
    /// Any elements.
    Free,
    /// No elements that are in the schema.
    Nothing,
    /// These components, in this order.
    Components(&'static [Component]),
    /// These components, in any order, as in a SET by BER. A component may repeat or be missing.
    Members(&'static [Component]),
    /// Any number of items like this one.
    Each(&'static Component),
    /// These components, in a primitive string. A constructed string has any elements, its parts.
    Holds(&'static [Component]),
    /// What the last identifier selects, in a primitive string. A constructed string has any elements.
    Chosen,
    /// No elements. The content octets are an identifier, which selects the type of a later element.
    Selects(&'static [Selection]),
    /// These components, in this order. The content octets of the first element are an identifier, which selects the
    /// type of an element after this one.
    Begins(&'static [Component], &'static [Selection]),
}

/// What an identifier selects.
#[cycle(schema)]
#[derive(Clone, Copy)]
pub struct Selection {
    /// The content octets of the identifier, as in an OBJECT IDENTIFIER (X.690 8.19).
    pub identifier: &'static [u8],
    /// One component: the type of the selected element, or of the element in a string.
    pub components: &'static [Component],
}

/// A mandatory component: `field!("serialNumber" INTEGER)`. If it is secret:
/// `field!("privateKey" OCTET_STRING => Secret)`. With its words:
/// `field!("error-index" INTEGER => "Error index" Number)`.
#[macro_export]
macro_rules! field {
    ($name:literal $kind:expr) => {
        $crate::component!($name false Public $kind, None)
    };
    ($name:literal $kind:expr => $secrecy:ident) => {
        $crate::component!($name false $secrecy $kind, None)
    };
    ($name:literal $kind:expr => $($words:tt)+) => {
        $crate::component!($name false Public $kind, Some(&$crate::words!($($words)+)))
    };
}

/// A component that is OPTIONAL or has a DEFAULT.
#[macro_export]
macro_rules! optional {
    ($name:literal $kind:expr) => {
        $crate::component!($name true Public $kind, None)
    };
    ($name:literal $kind:expr => $secrecy:ident) => {
        $crate::component!($name true $secrecy $kind, None)
    };
    ($name:literal $kind:expr => $($words:tt)+) => {
        $crate::component!($name true Public $kind, Some(&$crate::words!($($words)+)))
    };
}

/// A component that is optional or mandatory, and secret or not, with its words or none.
#[macro_export]
macro_rules! component {
    ($name:literal $optional:literal $secrecy:ident $kind:expr, $words:expr) => {
        $crate::schema::Component {
            name: $name,
            optional: $optional,
            secrecy: $crate::schema::Secrecy::$secrecy,
            kind: $kind,
            words: $words,
        }
    };
}

/// The universal type with this tag number, unless it is a string, SEQUENCE or SET.
#[macro_export]
macro_rules! universal {
    ($number:literal) => {
        $crate::tagged!(Universal $number Primitive $crate::schema::Inside::Free)
    };
}

/// The universal string type with this tag number. If a document defines what the string contains, that is given too.
#[macro_export]
macro_rules! string {
    ($number:literal) => {
        $crate::tagged!(Universal $number Either $crate::schema::Inside::Free)
    };
    ($number:literal $inside:expr) => {
        $crate::tagged!(Universal $number Either $inside)
    };
}

/// A SEQUENCE of these components.
#[macro_export]
macro_rules! sequence {
    ($($component:expr),* $(,)?) => {
        $crate::tagged!(Universal 16 Constructed $crate::schema::Inside::Components(&[$($component),*]))
    };
}

/// A SET of these components, in the order of their tags as in DER (X.690 10.3).
#[macro_export]
macro_rules! set {
    ($($component:expr),* $(,)?) => {
        $crate::tagged!(Universal 17 Constructed $crate::schema::Inside::Components(&[$($component),*]))
    };
}

/// A SEQUENCE OF this item.
#[macro_export]
macro_rules! sequence_of {
    ($item:expr) => {
        $crate::tagged!(Universal 16 Constructed $crate::schema::Inside::Each(&$item))
    };
}

/// A SET OF this item.
#[macro_export]
macro_rules! set_of {
    ($item:expr) => {
        $crate::tagged!(Universal 17 Constructed $crate::schema::Inside::Each(&$item))
    };
}

/// An explicit tag with this number, of the class ContextSpecific or of another class.
#[macro_export]
macro_rules! explicit {
    ($number:literal $component:expr) => {
        $crate::explicit!(ContextSpecific $number $component)
    };
    ($class:ident $number:literal $component:expr) => {
        $crate::tagged!($class $number Constructed $crate::schema::Inside::Components(&[$component]))
    };
}

/// An implicit tag of a primitive type that isn't a string, of a `string`, or of a constructed type with this inside.
#[macro_export]
macro_rules! implicit {
    ($number:literal) => {
        $crate::tagged!(ContextSpecific $number Primitive $crate::schema::Inside::Free)
    };
    ($number:literal string) => {
        $crate::tagged!(ContextSpecific $number Either $crate::schema::Inside::Free)
    };
    ($number:literal $inside:expr) => {
        $crate::tagged!(ContextSpecific $number Constructed $inside)
    };
}

/// A type with this class, tag number, form and inside.
#[macro_export]
macro_rules! tagged {
    ($class:ident $number:literal $form:ident $inside:expr) => {
        $crate::schema::Type::Tagged(
            $crate::schema::Class::$class,
            $number,
            $crate::schema::Form::$form,
            $inside,
        )
    };
}

/// What an identifier with these content octets selects.
#[macro_export]
macro_rules! selection {
    ($identifier:literal $component:expr) => {
        $crate::schema::Selection { identifier: $identifier, components: &[$component] }
    };
}
