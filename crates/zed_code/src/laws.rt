//! What insertions do if edits come in stamp order.
ghost use Rattle.zed_code.specs.Rising.{RisingGoDirectly};

/// If no byte of the text is of a later edit, the bytes of an insertion go directly after the byte
/// named, or to the head.
pub fn rising_insertions_go_directly()
    ensures rule { RisingGoDirectly }
{}
