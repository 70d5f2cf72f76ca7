//! The cipher tool as the store sees it, and one in memory that makes and opens the stand-in for sealed files.
#![tactic(auto)]

mod cipher;
mod mem_tool;
mod standin;

pub use cipher::{Cipher, SealFault, UnsealFault, WhomFault};
pub use mem_tool::MemTool;
pub use recipient_files::{Id, IdFault, OfFault, Recipients};
pub use standin::{Sealed, StandinFault, standin_read, standin_texts, standin_write};
