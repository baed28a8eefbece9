//! Laws of a cascade, in whatever order its edits are tried.
ghost use Rattle.zed_delivery.specs.Shows.{ContentHasAll, ContentTellsCan, BodyHasAll, BodyTellsCan};
ghost use Rattle.zed_delivery.specs.Steps.{HandIsReady, BodyBegins, BodyEnds};
ghost use Rattle.zed_delivery.specs.Taking.{CalmEditsHoldTheSame};
ghost use Rattle.zed_delivery.specs.TakingAll.{EmptyShowsNone, RisingAreApart};
ghost use Rattle.zed_delivery.specs.Cascade.{CascadesBegin, EditsArrive, EditsAreDone, EditsAreHeld, ThingsAreReleased, CascadesEnd};

use zed_live::document_shows_its_edits;
use zed_texts::{texts_are_ready, texts_show_their_edits};

/// Which edits are done and which wait, during a cascade. At its end they are those that the replay
/// takes and those that it holds.
pub fn cascades_settle()
    ensures begin { CascadesBegin }
    ensures arrive { EditsArrive }
    ensures done { EditsAreDone }
    ensures held { EditsAreHeld }
    ensures released { ThingsAreReleased }
    ensures end { CascadesEnd }
{}

/// How a cascade in a body begins and ends, and what an edit in hand is ready for.
pub fn bodies_begin_and_end()
    ensures begin { BodyBegins }
    ensures ready { HandIsReady }
    ensures end { BodyEnds }
{
    texts_are_ready();
}

/// Live parts and bodies have what the replay of their edits has, and decide what can be done after
/// them.
pub fn bodies_have_what_is_made()
    ensures parts { ContentHasAll }
    ensures parts_can { ContentTellsCan }
    ensures body { BodyHasAll }
    ensures body_can { BodyTellsCan }
{}

/// A body that took no edit shows none.
pub fn empty_bodies_show_none()
    ensures { EmptyShowsNone }
{
    document_shows_its_edits();
    texts_show_their_edits();
}

/// No two edits of a rising list have one stamp.
pub fn rising_edits_are_apart()
    ensures { RisingAreApart }
{}

/// If a new edit isn't held itself and wakes no other, the same edits are held as before.
pub fn calm_edits_hold_the_same()
    ensures { CalmEditsHoldTheSame }
{}
