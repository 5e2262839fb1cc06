// Readings of the source that docs/DEFINITION.md names as wrong, each as a definition with a table on which it differs from
// ours. The crate has no function: specs/Misreadings.antt says what each reading tells and where it goes astray, and
// proofs/Misreadings.antt shows it by computation.
#![tactic(auto)]
