//! How many runs of texts were looked at.
ghost use Rattle.std.specs.Prelude.{◌≡◌, ◌<◌, ◌-◌, ◌^◌, min, length, is_some, false, None, IfSome};
ghost use Rattle.zed_code.specs.Visits.{greatest};
ghost use Rattle.zed_document.specs.Counts.{capped, count_of, counts_of};
ghost use Rattle.zed_document.specs.Visits.{text_changed};

use zed_delivery::Body;
use zed_edit::{Edit, Op};
use zed_texts::LiveTexts;
use zed_types::TextId;

/// The runs that were looked at since the texts were made.
#[tactic(auto, using(crate::proofs::Looks::looks_kept))]
fn visits_of(texts: &LiveTexts) -> u128
    ensures result { result ≡ capped (counts_of texts.now) }
    ensures within { length texts.now < 2 ^ 64 }
{
    texts.looks()
}

/// The runs of one text that were looked at, none where it isn't there.
pub(crate) fn visits_at(texts: &LiveTexts, text: TextId) -> u64
    ensures { result ≡ count_of text (counts_of texts.now) }
{
    match texts.get(text) {
        Some(text) => text.visits(),
        None => 0,
    }
}

/// Whether an op puts bytes into a text, or takes some away.
fn is_of_bytes(op: &Op) -> bool
    ensures { result ≡ is_some (text_changed op.now) }
{
    matches!(op, Op::TextInsert(_, _, _) | Op::TextDelete(_, _))
}

/// The runs looked at before an edit comes, unless neither it nor an edit that waits is of a text's bytes.
pub(crate) fn visits_before(body: &Body, edit: &Edit) -> Option<u128>
    ensures some { IfSome result (λ v. v ≡ capped (counts_of body.now.texts)) }
    ensures none { result ≡ None → is_some (text_changed edit.now.op) ≡ false }
    ensures calm { result ≡ None → length body.now.inbox ≡ 0 }
{
    if is_of_bytes(&edit.op) || body.inbox.held() > 0 {
        Some(visits_of(&body.texts))
    } else {
        None
    }
}

/// A number of looks, as far as it has room.
fn told_of(looks: u128) -> u64
    ensures { result ≡ min looks greatest }
{
    if looks > u128::from(u64::MAX) {
        return u64::MAX;
    }
    looks as u64
}

/// The runs looked at since then, as far as their number has room.
pub(crate) fn visits_since(body: &Body, before: Option<u128>) -> u64
    ensures some { IfSome before (λ v.
        result ≡ min (capped (counts_of body.now.texts) - v) greatest) }
    ensures within { IfSome before (λ v. length body.now.texts < 2 ^ 64) }
    ensures none { before ≡ None → result ≡ 0 }
{
    match before {
        Some(before) => told_of(visits_of(&body.texts).saturating_sub(before)),
        None => 0,
    }
}
