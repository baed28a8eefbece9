//! Laws of documents, however they got their edits.
ghost use Rattle.zed_document.specs.Delivery.{DeliveriesComeToSets};
ghost use Rattle.zed_document.specs.Laws.{MergeCommutes, MergeAssociates, MergeRepeats, MergeOfItself, EditsDecide, DeliveriesMakeIt, MergeIsDeliveries, OrderNeverCounts};

use zed_op::{rising_lists_are_sets, set_is_its_edits, sets_rise, union_is_of_sets};

/// Merging is commutative, associative and idempotent, up to what documents show and hold.
pub fn merging_is_of_sets()
    ensures commutes { MergeCommutes }
    ensures associates { MergeAssociates }
    ensures repeats { MergeRepeats }
    ensures itself { MergeOfItself }
{
    sets_rise();
    rising_lists_are_sets();
    union_is_of_sets();
}

/// Documents that accepted the same edits are the same. Neither order nor repeats count, nor
/// whether the edits came by deliveries or by merges.
pub fn edits_decide()
    ensures same { EditsDecide }
    ensures deliveries { DeliveriesMakeIt }
    ensures merges { MergeIsDeliveries }
    ensures order { OrderNeverCounts }
{
    set_is_its_edits();
    union_is_of_sets();
}

/// Deliveries to a document without edits make the set of all of them, unless two edits clash.
/// Neither their order nor repeats count.
pub fn deliveries_come_to_sets()
    ensures { DeliveriesComeToSets }
{
    set_is_its_edits();
}
