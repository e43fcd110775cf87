//! What holds of the hashes of blocks, as a contract with no body.
ghost use Rattle.seeded_hash.specs.Collisions.{FewFactorsCollide};

/// Two blocks that differ in a word have one hash for at most 2^35 of the 2^64 values
/// that the secret factor of this word may have, whatever the other secrets are.
pub fn few_factors_collide()
    ensures { FewFactorsCollide }
{}
