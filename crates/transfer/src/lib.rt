// The transfer function of one sample (rules, section 6): the light of a code at every depth, the code of
// a light at 10 and 12 bits, and the constant tables that spare a caller every power and most of a search.
// It promises of each entry what the definitions of specs/ say, and asks nothing of a caller.
#![tactic(auto)]

pub mod starts;
pub mod table;
pub mod thresholds;
