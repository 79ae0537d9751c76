//! The law on what an answer means, the contract of an empty function.
ghost use Rattle.path_audit.specs.Paths.{PathProves};

/// Where an input is answered by a value or by nothing it is the forms of nodes, a line each, and each map of states with the root answers
/// the same, or its nodes and those show two different nodes with one hash, where the empty node has the zero hash.
pub fn a_path_proves_its_answer()
    ensures { PathProves }
{}
