// Parts of a session, for the comparison with the original alone: each can be called by itself, and the static
// library `test_exports_c` exports each to C and Rust. No host links it. There is one module for each part:
// `floats`, `leaves` (matrices and rows), `mode_search` and `mode_2d_search` (the searches as words), `kept`
// (kept evaluations) and `evaluations`. Each function is defined for every input, and its contract gives all that
// it answers and writes. What is lent to be written must overlap nothing else that is lent to the same call.
#![tactic(auto)]

pub mod evaluations;
pub mod floats;
pub mod kept;
pub mod leaves;
pub mod mode_2d_search;
pub mod mode_search;
