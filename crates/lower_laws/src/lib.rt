// Mathematics only: no function stands here. What follows from the relations and the count of a loop is in specs/.
#![tactic(auto)]
