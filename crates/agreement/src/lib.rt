// What a table means apart from where its numbers stand, and when two tables mean the same. There is no code: specs/ has the
// definitions, proofs/ the law of agreement, of which tickets and older layouts are instances.
#![tactic(auto)]
