//! What holds along every legal history, by its definition alone.
ghost use Rattle.shared_engine.specs.Unseen.{UnseenStays};
ghost use Rattle.shared_engine.specs.Laws.{LooksAreRight, PublishedRises, UpdatesStay, LooksAreCurrent};

/// Each look is answered from the tables that the last swap before it published, and they stand for no fewer changes than the caller
/// asked for.
pub fn looks_show_the_last_swap()
    ensures { LooksAreRight }
{}

/// A user's query over the tables of a look has the same answer in any two histories whose published changes leave the same rights and
/// tree, and of which the user sees the same, in whatever order it stands.
pub fn unseen_changes_nothing()
    ensures { UnseenStays }
{}

/// What is published never falls.
pub fn published_never_falls()
    ensures { PublishedRises }
{}

/// A look's tables are those of the last swap before it, and stand for no fewer changes than its caller asked for or was ever told.
pub fn looks_are_current()
    ensures { LooksAreCurrent }
{}

/// An update stays begun, and its caller's, until an entry of this caller.
pub fn updates_stay_begun()
    ensures { UpdatesStay }
{}
