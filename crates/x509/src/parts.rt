//! Readers of parts of a certificate, for other formats that have these parts. Each takes a DER cursor and returns the
//! next part, or the first error with its offset (`ReadsBy`).
pub use crate::algorithm::{read_algorithm, read_key_info};
pub use crate::certificate::{read_unique_id, read_version};
pub use crate::extension::{read_extension, read_extension_list, read_extensions};
pub use crate::name::read_name;
pub use crate::time::{read_time, read_validity};
