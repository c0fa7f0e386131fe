//! What is stored next by the new cells that hold the taint of a register or of a memory, as cells that compute it.
//!
//! A register's new cell stores the taint of the word that the register stores next. A memory's new memory has the
//! memory's own addresses, and is written with the taint of what is written; the memory's flag, taken through the write
//! ports from port 0 on, is what its flag register stores next. What the cells compute is said with no word on terms
//! (`specs/Next.antt`): it is what the meaning of taint says of the cell.
#![tactic(auto)]

mod memories;
mod operands;
mod registers;

pub use memories::{MemoryWrites, WriteOperands, next_memory};
pub use registers::next_register;
