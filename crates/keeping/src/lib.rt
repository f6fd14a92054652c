// A history in lent memory that is in range: the refusals 1, 5, 6, 12 and 7 of document 02, section 9.
#![tactic(auto)]

pub mod front;
