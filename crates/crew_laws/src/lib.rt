#![tactic(auto)]

// Laws about the crews' traces (document 02, Wish 8): proofs alone. Every turn brings a trace one turn nearer to its end, and what other
// crews do leaves it alone; `proofs/Lib.antt` lists the files.
