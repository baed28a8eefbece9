//! What a setting does to the header.

ghost use Rattle.std.specs.Prelude.{◌≡◌, ◌<◌, [], replicate, true, IfOk, IfErr};
ghost use Rattle.zed_types.specs.Strings.{header_has_string};
ghost use Rattle.zed_edit.specs.Header.{empty_header as header_of_empty, set_header as header_with};

use crate::plain::Header;
use std::alloc::Global;
use zed_op::EditError;
use zed_types::{BoardId, Bytes, HeaderSetting};

fn no_bytes(alloc: Global) -> Bytes
    ensures { result ≡ [] }
{
    Bytes::new(Vec::new(alloc))
}

fn no_flags(alloc: Global) -> [Bytes; 10]
    ensures { result ≡ replicate 10 [] }
{
    [
        no_bytes(alloc),
        no_bytes(alloc),
        no_bytes(alloc),
        no_bytes(alloc),
        no_bytes(alloc),
        no_bytes(alloc),
        no_bytes(alloc),
        no_bytes(alloc),
        no_bytes(alloc),
        no_bytes(alloc),
    ]
}

/// A header of 0 and empty values, which takes no memory.
pub(crate) fn empty_header(alloc: Global) -> Header
    ensures { result ≡ header_of_empty }
{
    Header {
        numbers: [0; 9],
        keys: [false; 7],
        saved: false,
        current_board: BoardId::TITLE,
        world_name: no_bytes(alloc),
        flags: no_flags(alloc),
    }
}

/// Overwrites the register of a setting.
pub(crate) fn set_header(header: &mut Header, setting: &HeaderSetting) -> Result<(), EditError>
    ensures set { IfOk result (λ _. header.new ≡ header_with setting.now header.old) }
    ensures err { IfErr result (λ e. e ≡ EditError.Memory) }
    ensures memory_only_when { IfErr result (λ e. header_has_string setting.now ≡ true) }
{
    match setting {
        HeaderSetting::Number(field, n) => header.numbers[usize::from(field.index())] = *n,
        HeaderSetting::Key(key, held) => header.keys[usize::from(key.index())] = *held,
        HeaderSetting::Saved(saved) => header.saved = *saved,
        HeaderSetting::CurrentBoard(b) => header.current_board = *b,
        HeaderSetting::WorldName(name) => header.world_name = name.copy()?,
        HeaderSetting::Flag(slot, flag) => header.flags[usize::from(slot.index())] = flag.copy()?,
    }
    Ok(())
}
