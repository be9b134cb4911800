// The rules of the actions, as definitions and theorems: see specs/ and proofs/. Nothing here runs; the crates from `access` to `lists` have the code.
#![tactic(auto)]
