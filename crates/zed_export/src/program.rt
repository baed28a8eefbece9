//! Which stats share a program.
ghost use Rattle.std.specs.Prelude.{◌≡◌, ◌<◌, ◌≤◌, ℕ, List, length, position, IfOk, IfSome};
ghost use Rattle.zed_edit.specs.Document.{text as text_shown};
ghost use Rattle.zed_export.specs.World.{is_of as is_text_of, user_of as lowest_user, code_with, exported_code};
ghost use Rattle.zed_export.specs.Fields.{IsOwned};

use std::alloc::{AllocError, Global};
use zed_document::{View, append_text};
use zed_types::{Bytes, TextId};
use zed_world::{Code, StatData};

/// Whether this is the text of a stat.
fn is_of(text: TextId, other: &Option<TextId>) -> bool
    ensures { result ≡ is_text_of text other.now }
{
    match other {
        Some(other) => *other == text,
        None => false,
    }
}

fn place_of(texts: &[Option<TextId>], text: TextId) -> Option<usize>
    ensures result { result ≡ position (is_text_of text) texts.now }
    ensures within { IfSome result (λ n. n < length texts.now) }
{
    texts.iter().position(|other| is_of(text, other))
}

/// The lowest stat past the player that uses a text, of stats with these texts. It looks at them
/// one by one, which takes no memory: at most 150 stats of a board are exported.
pub(crate) fn user_of(texts: &[Option<TextId>], text: TextId) -> Option<usize>
    ensures result { result ≡ lowest_user text texts.now }
    ensures within { IfSome result (λ n. n < length texts.now) }
{
    match texts.split_first() {
        Some((_, others)) => match place_of(others, text) {
            Some(place) => Some(place + 1),
            None => None,
        },
        None => None,
    }
}

/// The bytes of a text.
fn text_bytes(alloc: Global, view: &View, text: TextId) -> Result<Vec<u8>, AllocError>
    ensures { IfOk result (λ bytes. bytes.items ≡ text_shown view.now text) }
{
    let mut bytes = Vec::new(alloc);
    append_text(view, text, &mut bytes)?;
    Ok(bytes)
}

/// The program of these bytes, of the lowest stat that has them.
fn own_code(bytes: Vec<u8>) -> Code
    ensures { result ≡ code_with None bytes.items }
{
    if bytes.is_empty() {
        Code::None
    } else {
        Code::Own(Bytes::new(bytes))
    }
}

/// The program of a stat that has the bytes of stat `user`, whose program is given.
fn shared_code(user: usize, own: &Code) -> Code
    requires { user ≤ 151 }
    ensures { (bytes : List ℕ) → own.now ≡ code_with None bytes
        → result ≡ code_with (Some user) bytes }
{
    match own {
        Code::None => Code::None,
        _ => Code::Same(user as u8),
    }
}

/// The program of a stat above these stats, which have these texts. The bytes of a text are read once for each board that uses it.
pub(crate) fn program_of(
    alloc: Global,
    view: &View,
    lower: &[Option<TextId>],
    done: &[StatData],
    text: Option<TextId>,
) -> Result<Code, AllocError>
    requires few { length lower.now ≤ 151 }
    requires each { length done.now ≡ length lower.now }
    requires owned { IsOwned view.now lower.now done.now }
    ensures { IfOk result (λ code. code ≡ exported_code view.now lower.now text) }
{
    let Some(text) = text else {
        return Ok(Code::None);
    };
    match user_of(lower, text) {
        Some(user) => Ok(shared_code(user, &done[user].code)),
        None => Ok(own_code(text_bytes(alloc, view, text)?)),
    }
}
