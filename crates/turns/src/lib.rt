// What each kind of visit does next: as it begins, and as one that it asked for has ended. Reads only. Nothing here knows of units,
// nesting, marks, or where the frames of the visits in flight stand.
#![tactic(auto)]

pub mod begin;
pub mod resume;
pub mod turn;
