//! Lists that share their pages: a memory's contents in one cycle and in the next.
//!
//! Contracts see a `Paged` as the list of its words. A call that takes `alloc` may answer want of
//! memory, and changes nothing then.
//!
//! A page has 1,024 words, and a shelf 128 pages. A list is a table of shelves, and a shelf a table
//! of pages. Each table and each page stands behind a counted handle, so lists that were equal once
//! have in common what no later write has touched.
#![tactic(auto)]

mod page;
mod paged;
mod shelf;

pub use paged::Paged;
