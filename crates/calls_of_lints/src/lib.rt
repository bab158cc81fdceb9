//! Tests of public calls of `lint_texts`. Rows are constants, since each one in a function's body costs proof.
#![tactic(auto)]

#[cfg(test)]
mod lint_calls;
