// One node for one term: the run and the call over many subjects with an index in lent memory. The caller lends one slice, the store's
// words and then the index's, and says how many words are the store's.
#![tactic(auto)]

pub mod refusing;
pub mod run;
pub mod subjects;
