// What a typed rule means: definitions and theorems over parse, in specs/ and proofs/. No code.
#![tactic(auto)]
