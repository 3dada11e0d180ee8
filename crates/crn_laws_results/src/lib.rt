// No functions: proofs/ shows that what a contract says of a call fixes its result and what it leaves in what it was lent.
#![tactic(auto)]
