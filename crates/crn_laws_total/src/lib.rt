// No functions: specs/ says how opening, a level and several levels end, whatever they are given, and proofs/ that they do.
#![tactic(auto)]
