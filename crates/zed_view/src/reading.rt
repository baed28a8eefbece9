//! The text of a stat, and the bytes of a text, in a view.
ghost use Rattle.std.specs.Prelude.{◌≡◌, ◌<◌, length, filter, find, slice_get, option_map};
ghost use Rattle.zed_types.specs.Names.{same_stat};
ghost use Rattle.zed_op.specs.declared.thing.Thing.TheVariants.{Text as the_text};
ghost use Rattle.zed_edit.specs.Document.{has, text_register, elements};
ghost use Rattle.zed_view.specs.View.{board_at};

use crate::view::View;
use zed_types::{ElemId, StatId, TextId};

/// The text of a stat, if the stat was made on a board.
fn text_on(view: &View, i: usize, stat: StatId) -> Option<Option<TextId>>
    requires { i < length view.now.boards }
    ensures { result ≡ option_map (λ x. x.fields.text)
        (find (λ x. same_stat x.id stat) (board_at view.now i).stats) }
{
    for j in 0..view.stats(i) {
        let (id, live) = view.stat(i, j);
        if id == stat {
            return Some(live.values.fields.text);
        }
    }
    None
}

impl<'a> View<'a> {
    /// The text of a stat, which may be none. None if the stat was not made; a removed stat still
    /// has its text.
    pub fn text_of_stat(&self, stat: StatId) -> Option<Option<TextId>>
        ensures { result ≡ text_register self.now stat }
    {
        for i in 0..self.boards() {
            if let Some(text) = text_on(self, i, stat) {
                return Some(text);
            }
        }
        None
    }

    /// Whether a text was made.
    #[tactic(auto, using(crate::proofs::NamedTexts::is_made))]
    pub fn has_text(&self, id: TextId) -> bool
        ensures { result ≡ has self.now (the_text id) }
    {
        self.texts.has(id)
    }

    /// The name of the k-th live byte of a text, if there are so many.
    #[tactic(auto, using(crate::proofs::Sought::name_there))]
    pub fn name_at(&self, id: TextId, k: usize) -> Option<ElemId>
        ensures { result ≡ option_map (λ x. x.id)
            (slice_get (filter (λ x. x.alive) (elements self.now id)) k) }
    {
        match self.text(id) {
            Some(text) => text.elem_at(k),
            None => None,
        }
    }
}
