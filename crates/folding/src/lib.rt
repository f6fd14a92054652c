// What folding is, and what holds of it: document 02, section 10. Definitions and laws only; the code is in folding_code.
#![tactic(auto)]
