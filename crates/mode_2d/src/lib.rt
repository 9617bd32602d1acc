// The search for a subject's conditional mode with two effects, as rules: what is asked next, and what an
// evaluated point makes of the search. The module is the search of the source file of its name.
#![tactic(auto)]

pub mod population_focei_2d;
