//! The disk as the store sees it, and one in memory.
#![tactic(auto)]

mod act;
mod crash;
mod disk;
mod entries;
mod listing;
mod mem_disk;
#[cfg(test)]
mod mem_disk_tests;
#[cfg(test)]
mod tests;

pub use crash::Pick;
pub use disk::{Disk, DiskFault, Got, Listed};
pub use gopass_base::NoMemory;
pub use listing::{lies_in, rest_in};
pub use mem_disk::MemDisk;
