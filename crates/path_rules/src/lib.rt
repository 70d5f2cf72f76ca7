//! Rules: for whom the secrets of a folder are sealed.
#![tactic(auto)]

mod change;
mod entries;
mod governing;
mod rules;

pub use change::affected;
pub use governing::one_rule_governs;
pub use rules::{Absent, MOST_RULES, Rules, RulesFault};

#[cfg(test)]
mod tests;
