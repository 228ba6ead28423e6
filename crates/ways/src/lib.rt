// What follows from the promises of the full walk and the sweep: theorems only (specs/), no function.
#![tactic(auto)]
