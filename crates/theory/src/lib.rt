// No code: two queues of trains on one line, and why the best order is the best schedule.
// The definitions stand in specs/, the theorems in proofs/.
#![tactic(auto)]
