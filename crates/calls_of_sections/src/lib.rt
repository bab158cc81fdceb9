//! Tests of public calls of sections of formatted texts. Rows are constants, since each one in a function's
//! body costs proof.
#![tactic(auto)]

#[cfg(test)]
mod section_calls;
