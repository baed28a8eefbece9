//! What edits do to a stat.

ghost use Rattle.std.specs.Prelude.{◌≡◌};
ghost use Rattle.zed_types.specs.Names.{same_stat};
ghost use Rattle.zed_types.specs.Stat.{stat_number_index};
ghost use Rattle.zed_edit.specs.Document.{change_such, stat_if};
ghost use Rattle.zed_edit.specs.Stat.{with_number, set_stat as stat_with, player_fields as fields_of_player, remove_stat, new_stat as stat_of_new};

use crate::plain::Stat;
use zed_types::{StatFields, StatId, StatNumber, StatSetting, ThirdParameter};

fn set_number(stat: &mut Stat, field: StatNumber, n: i16)
    ensures { stat.new ≡ with_number (stat_number_index field) n stat.old }
{
    match field.index() {
        Some(i) => stat.fields.numbers[usize::from(i)] = n,
        None => stat.position = n,
    }
}

/// Overwrites the register of a setting.
pub(crate) fn set_stat(stat: &mut Stat, setting: StatSetting)
    ensures { stat.new ≡ stat_with setting stat.old }
{
    match setting {
        StatSetting::Byte(field, n) => stat.fields.bytes[usize::from(field.index())] = n,
        StatSetting::Number(field, n) => set_number(stat, field, n),
        StatSetting::P3(target) => stat.fields.p3 = target,
        StatSetting::Follower(follower) => stat.follower = follower,
        StatSetting::Leader(leader) => stat.leader = leader,
        StatSetting::Text(text) => stat.fields.text = text,
    }
}

/// What the player of a new board is given.
pub(crate) fn player_fields() -> StatFields
    ensures { result ≡ fields_of_player }
{
    StatFields {
        bytes: [30, 12, 0, 0, 0, 0],
        numbers: [0, 0, 1],
        p3: ThirdParameter::Byte(0),
        text: None,
    }
}

fn set_if(stat: &mut Stat, s: StatId, setting: StatSetting)
    ensures { stat.new ≡ stat_if s (stat_with setting) stat.old }
{
    if stat.id == s {
        set_stat(stat, setting);
    }
}

/// Overwrites a register of the stat of a name.
pub(crate) fn set_stats(stats: &mut [Stat], s: StatId, setting: StatSetting)
    ensures { stats.new ≡ change_such (λ x. same_stat x.id s) (stat_with setting) stats.old }
{
    for x in stats.iter_mut() {
        set_if(x, s, setting);
    }
}

fn remove_if(stat: &mut Stat, s: StatId)
    ensures { stat.new ≡ stat_if s remove_stat stat.old }
{
    if stat.id == s {
        stat.removed = !stat.is_player;
    }
}

/// Marks the stat of a name removed, except a player.
pub(crate) fn remove_stats(stats: &mut [Stat], s: StatId)
    ensures { stats.new ≡ change_such (λ x. same_stat x.id s) remove_stat stats.old }
{
    for x in stats.iter_mut() {
        remove_if(x, s);
    }
}

/// A stat as it is when it is added.
pub(crate) fn new_stat(id: StatId, is_player: bool, fields: StatFields) -> Stat
    ensures { result ≡ stat_of_new id is_player fields }
{
    Stat {
        id,
        is_player,
        fields,
        position: 0,
        follower: None,
        leader: None,
        removed: false,
    }
}
