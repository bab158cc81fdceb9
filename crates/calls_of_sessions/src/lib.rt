//! Tests of public calls that no command of the program reaches: sessions that ask the rules of their style.
//!
//! A row that a command reaches is in `worked_rows`, where it costs no proof. Here each call that can fail to
//! allocate is made once with ample memory, and its answer is compared. Rows are constants, since each one in
//! a function's body costs proof.
#![tactic(auto)]

#[cfg(test)]
mod session_calls;
