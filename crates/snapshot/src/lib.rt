// Save and load. What they write and accept is said in specs/.

#![tactic(auto)]
