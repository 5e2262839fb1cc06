// What held before a change, for whoever upgrades: specs/Upgrading.antt has the rule that no role comes twice on a branch, and what
// becomes of the lists that were made by it; specs/Unmarked.antt has the table without marks, which upgraded has the same answers.
// specs/Verdicts.antt has the verifier by a table's records, whatever its layout: an older layout says which these are. There is
// no code.
#![tactic(auto)]
