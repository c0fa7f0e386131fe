//! Session scripts and the lines of transcripts by example.
#![tactic(auto)]

#[cfg(test)]
mod scripts;
