//! Laws on roots. There is no code here.
ghost use Rattle.forest_roots.specs.Laws.{EntriesHaveOneStump, AdditionsTakeFewSteps};

/// Two roots that stand for one list of entries are equal.
pub fn entries_have_one_stump()
    ensures { EntriesHaveOneStump }
{}

/// Any additions, with deletions between them, take at most as many steps as there are additions, more the bits that are
/// set in the count of entries before them, less those that are set after them.
pub fn additions_take_few_steps()
    ensures { AdditionsTakeFewSteps }
{}
