//! Types of the schema, made of modules of ASN.1 (X.680).
//!
//! `Types::from_texts` reads modules, looks names up, and applies tags. Each type then has an index, by which a
//! `KnownType` and the components of other types refer to it.
//!
//! These become any element: ANY, INSTANCE OF, a type with parameters and a reference with parameters, since what they
//! are is said by values or by a parameter. A CHOICE with such an alternative is any element too. Constraints aren't
//! read, but for `CONTAINING` with the name of a type or a field of an object class.
//!
//! A field of an object class such as `CLASS.&Type ({Set}{@id})` is the type that the component `id` selects, if this
//! stands before it in the same list. For `{@algorithm.id}` the SEQUENCE `algorithm` has to begin with `id`. An object
//! selects its type if that and its identifier are names or numbers. Every other field is any element.
//!
//! Comments with words, such as `-- label: Age, notation: number`, say how elements are shown.
//!
//! A schema can't say that unknown elements may follow. So additions after `...` that a module has are optional
//! components, and others have no name. `EXPORTS` isn't read: each name of a module may be imported.
//!
//! Proved: it returns on any input, and an error has the line and column of its fault. Definitions in `specs/` say the
//! tag and form of each universal type, when a tag is explicit, which lists have automatic tags, what tags and references
//! make of a type, what an identifier makes of its type, and that a component has the words of its item. Only tested: how
//! names are looked up, which components a list has, how automatic tags are numbered, what objects select, that each type
//! of `Types` is the one of its item, and what is written of types.
#![tactic(auto)]

mod build;
mod item;
mod items;
mod lists;
mod look;
mod numbers;
mod open_types;
mod tags;
mod types;

pub use asn1_names::{Problem, TypesError};
pub use types::{ModuleTypes, Types};
