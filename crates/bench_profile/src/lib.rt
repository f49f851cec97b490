// The bench profile of document 01, for the definitions and contracts of `records` and for the example of `agreement`. No code.
#![tactic(auto)]
