//! Laws on what answers mean, each the contract of an empty function: they speak of a ledger's pages, not of the loop that reads them.
ghost use Rattle.page_audit.specs.Texts.{AcceptedArePages, PagesAreAnswered};
ghost use Rattle.page_audit.specs.Twins.{PagesHaveItems, WholeRunsGiveTwins};

/// Where no line is refused the input is a ledger's pages, whose items are a finite map, and the answer is the verdict on that ledger.
pub fn accepted_pages_are_a_ledger()
    ensures ledger { AcceptedArePages }
    ensures items { PagesHaveItems }
{}

/// No line of a ledger's pages is refused: the verdict on the ledger is the answer.
pub fn a_ledgers_pages_are_accepted()
    ensures { PagesAreAnswered }
{}

/// Two runs that answer whole for one hash, each over plain lines or over pages, are over one ledger, or among the forms of their two
/// ledgers two different ones have one hash, or one has the zero hash.
pub fn whole_runs_give_one_ledger()
    ensures { WholeRunsGiveTwins }
{}
