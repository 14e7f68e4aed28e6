// The laws of lists that several rooms want. It has no code: see specs/.
#![tactic(auto)]
