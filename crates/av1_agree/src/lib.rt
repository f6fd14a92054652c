// The two AV1 calls by the document's own steps, and the proof that both definitions agree. There is no function here: the definitions are in specs/, the statements in proofs/.
#![tactic(auto)]
