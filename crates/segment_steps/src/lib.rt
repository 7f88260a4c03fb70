//! Reference, which no program runs: what a crash leaves of the program's files is what it leaves of a store's.
//!
//! The machine of `store_core` has segments and tables where the program has journals (`ssb_journal`) and folders
//! (`table_folder`). Of each its contracts say what a crash may leave; here that is one of the files which the machine
//! leaves, so its laws hold of stores that are made of them. Which steps the commands make of a store, and in what order,
//! the rules of its calls say (`store_core/specs/Calls`, `store_folder`). Each law is the contract of a function of
//! [`laws`]; `specs/Steps` has the statements.
//!
//! ```text
//! commits are appended     the file keeps those from before, with the new ones or without    a segment, those synced
//! a journal is begun       no commits are read of it                                         a segment without commits
//! a folder is filled       no tables, or all five                                            none, or whole ones
//! ```
#![tactic(auto)]

pub mod laws;
