// The trainer's marked cases: mathematics only, no function stands here. The table and its claim are in specs/, the
// proof in proofs/.
#![tactic(auto)]
