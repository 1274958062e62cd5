// What is accepted, said a second way: a routine as syntax, its bytes, and when it is well-formed. There is no code here: what is proved is that the
// bytes that decode to a routine are just those of a well-formed one.
#![tactic(auto)]
