//! A view of an input and its elements: nodes with their content octets, their items in order, and the values of
//! universal types. The elements come from the calls of `der_elements::check`, or are read into a vector here. They may be any: a
//! view never reads outside the input.
pub mod laws;
pub mod node;
pub mod node_values;
pub mod nodes;
pub mod vectors;

pub use der_values::Value;
pub use node::Node;
pub use nodes::{Nodes, Preorder, Trees};
pub use vectors::read_element;
