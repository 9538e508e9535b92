// Counts: rules 7 to 9, the count, the polynomial and the steady degree of a table, and their laws. There is no function here.
#![tactic(auto)]
