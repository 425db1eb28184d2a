// Mathematics only: the store on trees and on frames. `specs/` has the definitions and statements, `proofs/` the proofs.
#![tactic(auto)]
