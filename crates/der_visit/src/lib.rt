//! Visitors: one call visits an object and the items inside it, in their order.
#![tactic(auto)]

mod handles;
mod handles_mut;
mod visit;
mod visit_mut;
mod walk;
mod walk_mut;

pub use handles::Handles;
pub use handles_mut::HandlesMut;
pub use visit::Visit;
pub use visit_mut::VisitMut;
pub use walk::Walk;
pub use walk_mut::WalkMut;
