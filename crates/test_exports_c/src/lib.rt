// The functions of `test_exports` for C and Rust: each export has the name of the function that it calls, and its
// contract. No host links it. There is one module for each of that library's.
#![tactic(auto)]

mod evaluations;
mod floats;
mod kept;
mod leaves;
mod mode_2d_search;
mod mode_search;
