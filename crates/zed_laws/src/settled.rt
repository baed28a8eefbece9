//! What holds of edits, in whatever order they came.
ghost use Rattle.zed_laws.specs.HeldAlone.{HeldChangesNothing, HeldTakesNothing, HeldIsOneMore};
ghost use Rattle.zed_laws.specs.Making.{LateEditMakes, TakenMake, ThingsAreOfEdits};
ghost use Rattle.zed_laws.specs.OwnNames.{BoardsHaveOwnNames, StatsHaveOwnNames, TextsHaveOwnNames};
ghost use Rattle.zed_laws.specs.Settled.{EarlierIsMadeBefore, EarlierDecide};

/// If an edit names only what came before it, then what isn't made at its place isn't made after it
/// either.
pub fn earlier_edits_decide()
    ensures made { EarlierIsMadeBefore }
    ensures can { EarlierDecide }
{}

/// An edit that can't be done at its place is held there, and changes nothing else.
pub fn held_edits_stand_alone()
    ensures content { HeldChangesNothing }
    ensures taken { HeldTakesNothing }
    ensures held { HeldIsOneMore }
{}

/// A replay has what the edits taken made, in whatever order they came. Each thing has the stamp of
/// an edit.
pub fn edits_make_all_things()
    ensures made { TakenMake }
    ensures late { LateEditMakes }
    ensures stamps { ThingsAreOfEdits }
{}

/// No two boards have the same name, nor do two stats of any boards, nor two texts.
pub fn things_have_own_names()
    ensures boards { BoardsHaveOwnNames }
    ensures stats { StatsHaveOwnNames }
    ensures texts { TextsHaveOwnNames }
{}
