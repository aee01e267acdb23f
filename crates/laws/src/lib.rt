//! The list of block calls (specs/BlockCalls.antt), and what holds of each call in it: the law on arriving blocks (specs/Prefix.antt). There is no
//! code here.

#![tactic(auto)]
