//! Tests of public calls that no command of the program reaches: maps and lists that are shared, lists of
//! colors, and lists between two others.
//!
//! A row that a command reaches is in `worked_rows`, where it costs no proof. Here each call that can fail to
//! allocate is made once with ample memory, and its answer is compared. Rows are constants, since each one in
//! a function's body costs proof.
#![tactic(auto)]

#[cfg(test)]
mod line_calls;
#[cfg(test)]
mod map_calls;
#[cfg(test)]
mod value_calls;
