// The page of meanings stands in specs/, and the laws of the line in proofs/.
#![tactic(auto)]
