//! What stats hold after writes, in whatever order these came.

ghost use Rattle.zed_stats.specs.Arrivals.{FieldsHoldTheLatest};

/// Each field of a stat holds the latest of the writes that came, in whatever order they came.
pub fn fields_hold_the_latest()
    ensures { FieldsHoldTheLatest }
{}
