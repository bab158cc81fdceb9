//! Tests of public calls that no command of the program reaches: objects and bytes of JSON, roots and powers,
//! and lists of slots. One module for each crate that has some.
//!
//! A row that a command reaches is in `worked_rows`, where it costs no proof. Here each call that can fail to
//! allocate is made once with ample memory, and its answer is compared.
#![tactic(auto)]

#[cfg(test)]
mod json_calls;
#[cfg(test)]
mod list_calls;
#[cfg(test)]
mod power_calls;
#[cfg(test)]
mod tree_calls;
