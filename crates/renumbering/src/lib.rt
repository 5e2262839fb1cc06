// What the law of agreement (crate agreement) says of the calls: tables that mean the same under other numbers of credentials have
// the same verdicts, minimal sets and lists, by those numbers. There is no code.
#![tactic(auto)]
