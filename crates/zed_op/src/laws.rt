//! What holds of sets of edits.
ghost use Rattle.zed_op.specs.Verdict.{FitIsEachPart};
ghost use Rattle.zed_op.specs.SetLaws.{EditKeepsRising, UnionKeepsRising, SetIsRising, RisingAgrees, RisingIsItsEdits, RisingIsItsSet, SetHasItsEdits, SetIsOfAnyOrder, SetGrowsByEdits, EditIsAdded, EditAgrees, LatestGoesLast, UnionAgrees, EditThereIsNothing, EditHasItsPlace, UnionHasBoth, UnionCommutes, UnionAssociates, UnionOfItsOwn, UnionOfSets, EditKeepsFit, UnionKeepsFit, SetKeepsFit};

/// Sets are rising lists, and stay so.
pub fn sets_rise()
    ensures edit { EditKeepsRising }
    ensures union { UnionKeepsRising }
    ensures set { SetIsRising }
{}

/// A rising list agrees, and its edits decide it.
pub fn rising_lists_are_sets()
    ensures agree { RisingAgrees }
    ensures known { RisingIsItsEdits }
    ensures own { RisingIsItsSet }
{}

/// The set of a list that agrees has exactly the edits of the list. Neither their order nor repeats
/// count.
pub fn set_is_its_edits()
    ensures members { SetHasItsEdits }
    ensures order { SetIsOfAnyOrder }
    ensures more { SetGrowsByEdits }
{}

/// What one more edit makes of a set.
pub fn edit_joins_a_set()
    ensures agree { EditAgrees }
    ensures members { EditIsAdded }
    ensures there { EditThereIsNothing }
    ensures place { EditHasItsPlace }
    ensures last { LatestGoesLast }
{}

/// The union of sets that agree: commutative, associative and idempotent.
pub fn union_is_of_sets()
    ensures agree { UnionAgrees }
    ensures members { UnionHasBoth }
    ensures commutes { UnionCommutes }
    ensures associates { UnionAssociates }
    ensures own { UnionOfItsOwn }
    ensures sets { UnionOfSets }
{}

/// A set whose edits fit keeps to that.
pub fn sets_stay_fit()
    ensures edit { EditKeepsFit }
    ensures union { UnionKeepsFit }
    ensures set { SetKeepsFit }
{}

/// An edit fits if its stamps, its values, its order and its world are each good.
pub fn fit_is_of_parts()
    ensures { FitIsEachPart }
{}
