// The byte examples of the exact rules, computed against the definitions: proofs/Marked.antt and proofs/More.antt.

#![tactic(auto)]
