//! Recipients: their ids, sets of them, and the files that name them.
#![tactic(auto)]

mod id;
mod recipients;
mod rule;

pub use id::{Id, IdFault};
pub use recipients::{IdAddFault, IdRemoveFault, OfFault, Recipients, rule_texts};
pub use rule::{RuleFault, RuleKind};
