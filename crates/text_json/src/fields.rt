//! The elements of an input as lines for people, each with the name of its field in a known type.
mod asked;
mod fit;
pub mod laws;
mod named;
mod secrets;
mod write;

pub use asked::schema_named;
pub use fit::fit_of;
pub use named::{Named, RefusedInput};
pub use secrets::{Exposure, SECRET, Secrets, is_inside, is_secret};
pub use write::{write_exposed, write_fields};
