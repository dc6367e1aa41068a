// The desk's table: the cases stand in specs/, and the proof that every one of them holds in proofs/.
#![tactic(auto)]
