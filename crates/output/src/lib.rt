//! Writing to a lent output: what a call that writes answers and leaves is a definition of specs/Output.antt, with its laws in
//! proofs/Outputs.antt. There is no code here.

#![tactic(auto)]
