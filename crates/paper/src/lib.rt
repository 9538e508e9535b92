// What is promised, in one place: specs/Demands.antt has the three demands, specs/Examples.antt the paper's starred examples,
// specs/Outputs.antt what goes out, and specs/OneResult.antt that each promise allows one result; the proofs have the same names. There is no
// code here.
#![tactic(auto)]
