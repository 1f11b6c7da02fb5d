//! What each part of an edge of the control graph makes of what is known of differences of cells, pack by pack, beside
//! what is known of the cells themselves (Miné 2001). Edges of small programs with matrices before and after, worked by
//! hand from the rules, stand in proofs/Edges.antt.
#![tactic(auto)]
