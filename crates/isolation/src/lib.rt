// Isolation, as definitions and theorems: see specs/ and proofs/. Nothing here runs. specs/Demands.antt is the page to read first.
#![tactic(auto)]
