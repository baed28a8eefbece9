//! The stats that a board is made with, and those that are added to it.

ghost use Rattle.std.specs.Prelude.{◌≡◌, [], false, IfOk, OnOk, OnErr};
ghost use Rattle.zed_types.specs.Names.{stat_of};
ghost use Rattle.zed_edit.specs.Stat.{new_stat as plain_stat};
ghost use Rattle.zed_live.specs.Stat.{values_of as values_in};
ghost use Rattle.zed_live.specs.BoardStats.{add_made, add_each};

use std::alloc::{AllocError, Global};
use zed_edit::Stat;
use zed_stats::{StatValues, Stats};
use zed_types::{Stamp, StatFields, StatId};

fn values_of(stat: &Stat) -> StatValues
    ensures { result ≡ values_in stat.now }
{
    StatValues {
        fields: stat.fields,
        position: stat.position,
        follower: stat.follower,
        leader: stat.leader,
    }
}

/// Adds a stat as the edit that makes it leaves it. Memory leaves the stats as they were.
fn add_stat(stats: &mut Stats, made: &Stat) -> Result<(), AllocError>
    ensures ok { OnOk result (stats.new ≡ add_made made.now stats.old) }
    ensures kept { OnErr result (stats.new ≡ stats.old) }
{
    stats.add(made.id, made.is_player, values_of(made))?;
    Ok(())
}

/// Stats as the edit that makes their board leaves them.
pub(crate) fn stats_made(alloc: Global, made: &[Stat]) -> Result<Stats, AllocError>
    ensures ok { IfOk result (λ s. s ≡ add_each made.now []) }
{
    let mut stats = Stats::new(alloc);
    for stat in made {
        add_stat(&mut stats, stat)?;
    }
    Ok(stats)
}

/// Adds the stat that the edit with this stamp makes. Memory leaves the stats as they were.
pub(crate) fn add_new(stats: &mut Stats, stamp: Stamp, fields: StatFields) -> Result<(), AllocError>
    ensures ok { OnOk result
        (stats.new ≡ add_made (plain_stat (stat_of stamp 0) false fields) stats.old) }
    ensures kept { OnErr result (stats.new ≡ stats.old) }
{
    let made = Stat {
        id: StatId::new(stamp, 0),
        is_player: false,
        fields,
        position: 0,
        follower: None,
        leader: None,
        removed: false,
    };
    add_stat(stats, &made)
}
