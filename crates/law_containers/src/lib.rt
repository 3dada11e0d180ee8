// No functions: what the definitions of containers entail, as theorems in proofs/, said in the words of specs/.
#![tactic(auto)]
