// No functions: the three promises, as theorems over the own contracts of the entry functions. Begin at proofs/Promises.antt.
#![tactic(auto)]
