// What the project claims, each statement citing the crate that proves it. There is no function here: the statements are in proofs/.
#![tactic(auto)]
