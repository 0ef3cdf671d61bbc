//! Controlled elements: what they mean, the airport and the flow constrained area.

#![tactic(auto)]

mod elements;
mod kinds;
mod model;
mod names;
mod naming;
mod pointed;
mod slot;
mod slots;

pub use kinds::{Airport, FlowArea};
pub use model::{Element, SlotName};
pub use naming::Naming;
pub use slot::Slot;
