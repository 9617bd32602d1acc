// What one observation, a row, adds to the likelihood of its subject. Each module has the part of the source
// file of its name that looks at a single row: `population_focei` with one random effect,
// `population_focei_2d` with two. The terms that a row is made of are the same for both (specs/Terms.antt).
#![tactic(auto)]

pub mod population_focei;
pub mod population_focei_2d;
