// Division: the rules of marks (rule 2), cones (3), complete tables (4) and the descent (6), with their laws. There is no function here: the crates
// above compute what these rules say.
#![tactic(auto)]
