//! The law on whole ledgers of one hash, the contract of an empty function.
ghost use Rattle.audit_core.specs.Twins.{WholesAreOne};

/// Whole ledgers of one hash are one ledger, or among their forms two different ones have one hash, or one has the zero hash.
pub fn wholes_of_one_hash_are_one()
    ensures { WholesAreOne }
{}
