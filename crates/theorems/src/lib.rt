// Every theorem of the product, named in one file: proofs/Theorems.antt. The crate has no function.
#![tactic(auto)]
