//! What was made in a document.

ghost use Rattle.std.specs.Prelude.{◌≡◌};
ghost use Rattle.std.specs.List.{list_any};
ghost use Rattle.zed_types.specs.Names.{same_element, same_stat};
ghost use Rattle.zed_edit.specs.Document.{has, find_text};
ghost use Rattle.zed_edit.specs.Lent.{lent};
ghost use Rattle.zed_op.specs.declared.thing.Thing.TheVariants.{Board as board, Stat as stat, Text as text, Element as element};

use crate::plain::{Board, Plain, Text};
use zed_op::Thing;
use zed_types::{BoardId, ElemId, StatId, TextId};

/// Whether a board was made, removed or not.
pub fn has_board(plain: &Plain, b: BoardId) -> bool
    ensures { result ≡ has plain.now (board b) }
{
    plain.boards.as_slice().iter().any(|x| x.id == b)
}

fn board_has(board: &Board, s: StatId) -> bool
    ensures { result ≡ list_any (λ x. same_stat x.id s) board.now.stats }
{
    board.stats.as_slice().iter().any(|x| x.id == s)
}

/// Whether a stat was made, removed or not.
pub fn has_stat(plain: &Plain, s: StatId) -> bool
    ensures { result ≡ has plain.now (stat s) }
{
    plain.boards.as_slice().iter().any(|b| board_has(b, s))
}

/// Whether a text was made.
pub fn has_text(plain: &Plain, t: TextId) -> bool
    ensures { result ≡ has plain.now (text t) }
{
    plain.texts.as_slice().iter().any(|x| x.id == t)
}

/// The text of a name.
pub(crate) fn text_named(plain: &Plain, t: TextId) -> Option<&Text>
    ensures { lent result ≡ find_text t plain.now.texts }
{
    plain.texts.as_slice().iter().find(|x| x.id == t)
}

fn text_has(text: &Text, a: ElemId) -> bool
    ensures { result ≡ list_any (λ x. same_element x.id a) text.now.elements }
{
    text.elements.as_slice().iter().any(|x| x.id == a)
}

/// Whether a byte was put into a text, dead or not.
pub fn has_element(plain: &Plain, t: TextId, a: ElemId) -> bool
    ensures { result ≡ has plain.now (element t a) }
{
    match text_named(plain, t) {
        Some(x) => text_has(x, a),
        None => false,
    }
}

/// Whether a thing was made, removed or not.
pub fn has_thing(plain: &Plain, thing: Thing) -> bool
    ensures { result ≡ has plain.now thing }
{
    match thing {
        Thing::Board(b) => has_board(plain, b),
        Thing::Stat(s) => has_stat(plain, s),
        Thing::Text(t) => has_text(plain, t),
        Thing::Element(t, a) => has_element(plain, t, a),
    }
}
