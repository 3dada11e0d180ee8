// What the definitions of the crate `crn_format` entail of a level: theorems in proofs/, said in the words of specs/. No code.
#![tactic(auto)]
