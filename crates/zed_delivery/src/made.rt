//! The things that an edit makes, in a list.
ghost use Rattle.std.specs.Prelude.{◌≡◌, ◌∷◌, ◌++◌, [], ◌<◌, ◌^◌, map, length, IfOk, OnOk};
ghost use Rattle.zed_types.specs.Text.{run_from};
ghost use Rattle.zed_op.specs.Fit.{Fits};
ghost use Rattle.zed_op.specs.Names.{names_of};
ghost use Rattle.zed_delivery.specs.Made.{board_thing, text_thing, stat_things, all_stat_things, byte_things, all_byte_things, things_in, things_made};
ghost use Rattle.zed_laws.specs.Winners.{made_boards};
ghost use Rattle.zed_laws.specs.Making.{made_texts};

use std::alloc::{AllocError, Global};
use zed_edit::{Board, Plain, Stat, Text, made_by};
use zed_op::{Edit, Op, Thing};
use zed_types::{ElemId, Stamp, StatId, TextByte, TextId};

fn add(things: &mut Vec<Thing>, thing: Thing) -> Result<(), AllocError>
    ensures ok { OnOk result (things.new.items ≡ things.old.items ++ thing ∷ []) }
{
    things.push(thing)?;
    Ok(())
}

fn add_boards(things: &mut Vec<Thing>, boards: &[Board]) -> Result<(), AllocError>
    ensures ok { OnOk result (things.new.items ≡ things.old.items ++ map board_thing boards.now) }
{
    for board in boards {
        add(things, Thing::Board(board.id))?;
    }
    Ok(())
}

fn add_stats(things: &mut Vec<Thing>, stats: &[Stat]) -> Result<(), AllocError>
    ensures ok { OnOk result (things.new.items ≡ things.old.items ++ stat_things stats.now) }
{
    for stat in stats {
        add(things, Thing::Stat(stat.id))?;
    }
    Ok(())
}

fn add_all_stats(things: &mut Vec<Thing>, boards: &[Board]) -> Result<(), AllocError>
    ensures ok { OnOk result (things.new.items ≡ things.old.items ++ all_stat_things boards.now) }
{
    for board in boards {
        add_stats(things, board.stats.as_slice())?;
    }
    Ok(())
}

fn add_texts(things: &mut Vec<Thing>, texts: &[Text]) -> Result<(), AllocError>
    ensures ok { OnOk result (things.new.items ≡ things.old.items ++ map text_thing texts.now) }
{
    for text in texts {
        add(things, Thing::Text(text.id))?;
    }
    Ok(())
}

fn add_bytes(things: &mut Vec<Thing>, text: TextId, elements: &[TextByte]) -> Result<(), AllocError>
    ensures ok { OnOk result (things.new.items ≡ things.old.items ++ byte_things text elements.now) }
{
    for element in elements {
        add(things, Thing::Element(text, element.id))?;
    }
    Ok(())
}

fn add_all_bytes(things: &mut Vec<Thing>, texts: &[Text]) -> Result<(), AllocError>
    ensures ok { OnOk result (things.new.items ≡ things.old.items ++ all_byte_things texts.now) }
{
    for text in texts {
        add_bytes(things, text.id, text.elements.as_slice())?;
    }
    Ok(())
}

/// The things of a document.
fn all_of(alloc: Global, plain: &Plain) -> Result<Vec<Thing>, AllocError>
    ensures ok { IfOk result (λ things. things.items ≡ things_in plain.now.boards plain.now.texts) }
{
    let mut things = Vec::new(alloc);
    add_boards(&mut things, plain.boards.as_slice())?;
    add_all_stats(&mut things, plain.boards.as_slice())?;
    add_texts(&mut things, plain.texts.as_slice())?;
    add_all_bytes(&mut things, plain.texts.as_slice())?;
    Ok(things)
}

/// The things that an edit makes that names nothing.
fn made_alone(alloc: Global, edit: &Edit) -> Result<Vec<Thing>, AllocError>
    requires fits { Fits edit.now }
    requires alone { names_of edit.now.op ≡ [] }
    ensures ok { IfOk result (λ things.
        things.items ≡ things_in (made_boards edit.now.stamp edit.now.op) (made_texts edit.now.stamp edit.now.op)) }
{
    let made = made_by(alloc, edit)?;
    all_of(alloc, &made)
}

/// The bytes that an insertion makes.
fn inserted(
    alloc: Global,
    stamp: Stamp,
    text: TextId,
    bytes: &[u8],
) -> Result<Vec<Thing>, AllocError>
    requires { length bytes.now < 2 ^ 32 }
    ensures ok { IfOk result (λ things. things.items ≡ byte_things text (run_from stamp 0 bytes.now)) }
{
    let mut things = Vec::new(alloc);
    for (i, _) in bytes.iter().enumerate() {
        add(
            &mut things,
            Thing::Element(text, ElemId::new(stamp, i as u32)),
        )?;
    }
    Ok(things)
}

fn one(alloc: Global, thing: Thing) -> Result<Vec<Thing>, AllocError>
    ensures ok { IfOk result (λ things. things.items ≡ thing ∷ []) }
{
    let mut things = Vec::new(alloc);
    add(&mut things, thing)?;
    Ok(things)
}

/// The things that an edit makes where it is done.
pub(crate) fn things_of(alloc: Global, edit: &Edit) -> Result<Vec<Thing>, AllocError>
    requires { Fits edit.now }
    ensures ok { IfOk result (λ things. things.items ≡ things_made edit.now.stamp edit.now.op) }
{
    match &edit.op {
        Op::Genesis(_) | Op::BoardAdd(_) | Op::TextAdd => made_alone(alloc, edit),
        Op::StatAdd(_, _) => one(alloc, Thing::Stat(StatId::new(edit.stamp, 0))),
        Op::TextInsert(text, _, bytes) => inserted(alloc, edit.stamp, *text, bytes.as_slice()),
        _ => Ok(Vec::new(alloc)),
    }
}
