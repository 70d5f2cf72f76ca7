//! A store: its secrets, and the commands on it.
#![tactic(auto)]

mod apply;
mod change_of;
mod differ;
mod edit;
mod foresee;
mod insert;
mod laws;
mod limits;
mod open_store;
mod read_fault;
mod reads;
mod refusal;
mod show;
mod store;

pub use edit::{ApplyFault, Edit};
pub use laws::{insert_keeps, store_has_its_state};
pub use open_store::StoreOpened;
pub use read_fault::ReadFault;
pub use refusal::Refusal;
pub use store::Store;
pub use store_state::{Limit, StoreFault};

#[cfg(test)]
mod edit_crash_tests;
#[cfg(test)]
mod edit_tests;
#[cfg(test)]
mod limit_tests;
#[cfg(test)]
mod tests;
