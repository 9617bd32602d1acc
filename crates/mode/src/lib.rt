// The search for a subject's conditional mode with one effect, as rules: what is asked next, and what an
// evaluated point makes of the search. The module is the search of the source file of its name.
#![tactic(auto)]

pub mod population_focei;

// What a search asks for, with one effect (a float) or two (a pair): the next point, to end in its mode (the
// search's best point), or to end in a refusal with document 01's number, 13 to 16: it has no other name there,
// and the definitions, the claims and the hosts say the number.
#[derive(Clone, Copy)]
pub enum Request<P> {
    Point(P),
    Mode,
    Refused(u32),
}
