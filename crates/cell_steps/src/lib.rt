//! What each part of an edge of the control graph makes of what is known of cells: intervals of their numbers, or nothing
//! (Cousot and Cousot 1977).
#![tactic(auto)]
