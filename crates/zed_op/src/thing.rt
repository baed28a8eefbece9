//! What edits make and name.
ghost use Rattle.std.specs.Prelude.{◌≡◌};
ghost use Rattle.zed_types.specs.Names.{title};
ghost use Rattle.zed_op.specs.declared.thing.Thing.TheVariants.{Board as board};

use zed_types::{BoardId, ElemId, StatId, TextId};

/// What an edit makes or names. A byte of a text is named together with its text.
#[derive(Clone, Copy, PartialEq, Eq, PartialOrd, Ord)]
pub enum Thing {
    Board(BoardId),
    Stat(StatId),
    Text(TextId),
    Element(TextId, ElemId),
}

impl Default for Thing {
    ghost is_default = { λ thing. thing ≡ board title };

    fn default() -> Thing {
        Thing::Board(BoardId::TITLE)
    }
}
