//! What holds after any list of calls on a weigh head (RULES 12.6). specs/DosingClaim.antt says it,
//! specs/WeighDriven.antt says what a list of calls is, and proofs/ClaimHolds.antt proves the claim
//! of every such list, from the contracts of `weigh` and the claim over the node's calls alone. The
//! crate has no code: `weigh` plays such lists.

#![tactic(auto)]
