// Definitions only: which refusals each operation has, and slices that are long enough (specs/Refusals.antt), which proofs/Refusals.antt,
// proofs/FlattenRefusals.antt and proofs/SmtlibRefusals.antt prove; a call that meets each refusal (specs/Met.antt); a text that needs more
// than half of each length (specs/Needed.antt). Nothing depends on this crate.
#![tactic(auto)]
