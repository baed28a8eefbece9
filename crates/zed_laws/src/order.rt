//! The order of what a replay makes.
ghost use Rattle.zed_laws.specs.NameOrder.{ReplayIsOrdered};

/// Texts, boards, and the stats of each board are in the order of their names: by stamp, and then
/// by index.
pub fn replay_is_ordered()
    ensures { ReplayIsOrdered }
{}
