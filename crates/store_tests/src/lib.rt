//! Tests of the lines of the warehouse: the rows of the primary replica within small limits, the columns and their
//! codes, their two copies with readers in threads, the machine without threads, the definition of answers, and how
//! much of tables and of scripts is read.
#![tactic(auto)]

#[cfg(test)]
mod tests;
