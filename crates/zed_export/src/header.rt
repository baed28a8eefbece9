//! The header of the exported world.
ghost use Rattle.std.specs.Prelude.{◌≡◌, ◌≤◌, IfOk, length};
ghost use Rattle.zed_laws.specs.NameOrder.{IsOrdered};
ghost use Rattle.zed_laws.specs.Regular.{IsRegular};
ghost use Rattle.zed_live.specs.Shown.{shown};
ghost use Rattle.zed_export.specs.World.{exported_header};
ghost use Rattle.zed_export.specs.Fields.{board_names, FitsHeader};

use crate::numbers::{BoardNames, board_number};
use std::alloc::{AllocError, Global};
use zed_document::View;
use zed_live::LiveHeader;
use zed_types::{Bytes, FlagSlot, HeaderNumber, KeyColour, Seq};
use zed_world::Header;

/// The ten places for flags, in their order.
const SLOTS: [FlagSlot; 10] = [
    FlagSlot::First,
    FlagSlot::Second,
    FlagSlot::Third,
    FlagSlot::Fourth,
    FlagSlot::Fifth,
    FlagSlot::Sixth,
    FlagSlot::Seventh,
    FlagSlot::Eighth,
    FlagSlot::Ninth,
    FlagSlot::Tenth,
];

fn keys_of(header: &LiveHeader) -> [bool; 7]
    requires { length (shown header.now).keys ≡ 7 }
    ensures { result ≡ (shown header.now).keys }
{
    [
        header.key(KeyColour::Blue),
        header.key(KeyColour::Green),
        header.key(KeyColour::Cyan),
        header.key(KeyColour::Red),
        header.key(KeyColour::Purple),
        header.key(KeyColour::Yellow),
        header.key(KeyColour::White),
    ]
}

fn flags_of(alloc: Global, header: &LiveHeader) -> Result<Seq<Bytes>, AllocError>
    requires { length (shown header.now).flags ≡ 10 }
    ensures { IfOk result (λ flags. flags ≡ (shown header.now).flags) }
{
    let mut flags = Vec::new(alloc);
    for slot in &SLOTS {
        flags.push(Bytes::from_slice(alloc, header.flag(*slot))?)?;
    }
    Ok(Seq::from_vec(flags))
}

/// The header of the world, whose boards have these names.
pub(crate) fn header_of(
    alloc: Global,
    view: &View,
    boards: &BoardNames,
) -> Result<Header, AllocError>
    requires regular { IsRegular view.now }
    requires ordered { IsOrdered view.now }
    requires named { boards.now ≡ board_names view.now }
    requires few { length boards.now ≤ 101 }
    ensures result { IfOk result (λ header. header ≡ exported_header view.now) }
    ensures fits { IfOk result (λ header. FitsHeader header) }
{
    let header = view.header();
    Ok(Header {
        ammo: header.number(HeaderNumber::Ammo),
        gems: header.number(HeaderNumber::Gems),
        keys: keys_of(header),
        health: header.number(HeaderNumber::Health),
        current_board: board_number(boards, header.current_board()),
        torches: header.number(HeaderNumber::Torches),
        torch_ticks: header.number(HeaderNumber::TorchTicks),
        energizer_ticks: header.number(HeaderNumber::EnergizerTicks),
        score: header.number(HeaderNumber::Score),
        name: Bytes::from_slice(alloc, header.world_name())?,
        flags: flags_of(alloc, header)?,
        time_passed: header.number(HeaderNumber::TimePassed),
        hundredths: header.number(HeaderNumber::Hundredths),
        saved: header.saved(),
    })
}
