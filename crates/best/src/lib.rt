// No code: the rules of the line as an instance of the theory, and the theorem that the plan is best.
// The statements stand in specs/, their proofs in proofs/.
#![tactic(auto)]
