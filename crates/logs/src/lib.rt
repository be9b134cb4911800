// Theory only: what holds of whole logs. The definitions are in specs, their laws in proofs.
#![tactic(auto)]
