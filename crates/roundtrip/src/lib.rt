// Mathematics only: no function stands here. That what is read writes back, and what is written reads back, is in
// specs/.
#![tactic(auto)]
