//! Tests of commands, as transcripts (docs/TRANSCRIPTS.md).
#![tactic(auto)]

#[cfg(test)]
mod calls_tests;
#[cfg(test)]
mod crash_tests;
#[cfg(test)]
mod files_tests;
#[cfg(test)]
mod input_tests;
#[cfg(test)]
mod insert_tests;
#[cfg(test)]
mod limit_tests;
#[cfg(test)]
mod listing_tests;
#[cfg(test)]
mod mounts_tests;
#[cfg(test)]
mod recipients_tests;
#[cfg(test)]
mod refused_tests;
#[cfg(test)]
mod show_tests;
#[cfg(test)]
mod status_tests;
#[cfg(test)]
mod stream_tests;
