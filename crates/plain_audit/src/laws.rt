//! Laws on what answers mean, each the contract of an empty function: they speak of a ledger's text, not of the loop that reads it.
ghost use Rattle.plain_audit.specs.Ledgers.{AcceptedIsLedger, TextHasItems, LedgerIsAnswered};
ghost use Rattle.plain_audit.specs.Twins.{WholeRunsAreTwins};

/// Where no line is refused the input is a ledger's text, whose items are finite maps, and the answer is the verdict on that ledger.
pub fn an_accepted_input_is_a_ledger()
    ensures ledger { AcceptedIsLedger }
    ensures items { TextHasItems }
{}

/// No line of a ledger's text is refused: the verdict on the ledger is the answer.
pub fn a_ledgers_text_is_accepted()
    ensures { LedgerIsAnswered }
{}

/// Two runs that answer whole for one hash are over texts of one ledger, or among the forms of their two ledgers two different ones have
/// one hash, or one has the zero hash.
pub fn whole_runs_of_one_hash_are_of_one_ledger()
    ensures { WholeRunsAreTwins }
{}
