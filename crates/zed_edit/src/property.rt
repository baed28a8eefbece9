//! What edits do to a board.

ghost use Rattle.std.specs.Prelude.{◌≡◌, true, IfOk, IfErr};
ghost use Rattle.zed_types.specs.Strings.{board_has_string};
ghost use Rattle.zed_edit.specs.Board.{set_property as property_with};

use crate::plain::Properties;
use zed_op::EditError;
use zed_types::BoardSetting;

/// Overwrites the register of a setting.
pub(crate) fn set_property(
    properties: &mut Properties,
    setting: &BoardSetting,
) -> Result<(), EditError>
    ensures set { IfOk result (λ _. properties.new ≡ property_with setting.now properties.old) }
    ensures err { IfErr result (λ e. e ≡ EditError.Memory) }
    ensures memory_only_when { IfErr result (λ e. board_has_string setting.now ≡ true) }
{
    match setting {
        BoardSetting::Byte(field, n) => properties.bytes[usize::from(field.index())] = *n,
        BoardSetting::Flag(field, on) => properties.flags[usize::from(field.index())] = *on,
        BoardSetting::TimeLimit(n) => properties.time_limit = *n,
        BoardSetting::Rank(n) => properties.rank = *n,
        BoardSetting::Exit(side, board) => properties.exits[usize::from(side.index())] = *board,
        BoardSetting::Text(field, text) => {
            properties.texts[usize::from(field.index())] = text.copy()?
        }
    }
    Ok(())
}
