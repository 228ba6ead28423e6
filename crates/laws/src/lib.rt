// Mathematics only: no function stands here. The laws are in specs/.
#![tactic(auto)]
