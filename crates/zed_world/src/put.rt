//! Fields of a world file, written.
ghost use Rattle.std.specs.Prelude.{◌≡◌, ◌+◌, ◌<◌, ◌≤◌, ◌∷◌, [], ◌++◌, pos, length, OnOk, FitsSigned, replicate};
ghost use Rattle.std.specs.List.{flat_map, AllByRecursion};
ghost use Rattle.std.specs.Int.{w16};
ghost use Rattle.zed_world.specs.Fields.{integer, flag, zeros, string, number_or_none};
ghost use Rattle.zed_world.specs.Writing.{counters_text, names_text, header_text, properties_text, code_length, code_text, stat_text};
ghost use Rattle.zed_world.specs.Normal.{IsAtMost};

use crate::board::Properties;
use crate::header::Header;
use crate::stat::{Code, StatData};
use byteorder::{ByteOrder, LittleEndian};
use std::alloc::AllocError;
use zed_types::Bytes;

#[tactic(auto, unfolding(crate::specs::Fields::integer))]
pub(crate) fn put_integer(out: &mut Vec<u8>, n: i16) -> Result<(), AllocError>
    ensures { OnOk result (out.new.items ≡ out.old.items ++ integer n) }
{
    let mut bytes = [0; 2];
    LittleEndian::write_i16(&mut bytes, n);
    out.extend_from_slice(&bytes)
}

/// Appends a number that isn't negative.
pub(crate) fn put_number(out: &mut Vec<u8>, n: u8) -> Result<(), AllocError>
    ensures { OnOk result (out.new.items ≡ out.old.items ++ integer (pos n)) }
{
    put_integer(out, i16::from(n))
}

fn put_flag(out: &mut Vec<u8>, set: bool) -> Result<(), AllocError>
    ensures { OnOk result (out.new.items ≡ out.old.items ++ flag set) }
{
    out.extend_from_slice(&[u8::from(set)])
}

#[tactic(auto, unfolding(crate::specs::Fields::zeros))]
fn put_zeros(out: &mut Vec<u8>, n: usize) -> Result<(), AllocError>
    ensures { OnOk result (out.new.items ≡ out.old.items ++ zeros n) }
{
    for _ in 0..n {
        out.push(0)?;
    }
    Ok(())
}

#[tactic(auto, unfolding(crate::specs::Fields::string))]
pub(crate) fn put_string(out: &mut Vec<u8>, field: usize, text: &Bytes) -> Result<(), AllocError>
    requires short { length text.now ≤ field }
    requires field { field ≤ 255 }
    ensures { OnOk result (out.new.items ≡ out.old.items ++ string field text.now) }
{
    let bytes = text.as_slice();
    out.push(bytes.len() as u8)?;
    out.extend_from_slice(bytes)?;
    put_zeros(out, field - bytes.len())
}

fn put_keys(out: &mut Vec<u8>, keys: &[bool]) -> Result<(), AllocError>
    ensures { OnOk result (out.new.items ≡ out.old.items ++ flat_map flag keys.now) }
{
    for key in keys {
        put_flag(out, *key)?;
    }
    Ok(())
}

fn put_flags(out: &mut Vec<u8>, flags: &[Bytes]) -> Result<(), AllocError>
    requires { AllByRecursion (IsAtMost 20) flags.now }
    ensures { OnOk result (out.new.items ≡ out.old.items ++ flat_map (string 20) flags.now) }
{
    for text in flags {
        put_string(out, 20, text)?;
    }
    Ok(())
}

fn put_counters(out: &mut Vec<u8>, header: &Header) -> Result<(), AllocError>
    ensures { OnOk result (out.new.items ≡ out.old.items ++ counters_text header.now) }
{
    put_integer(out, header.ammo)?;
    put_integer(out, header.gems)?;
    put_keys(out, &header.keys)?;
    put_integer(out, header.health)?;
    put_number(out, header.current_board)?;
    put_integer(out, header.torches)?;
    put_integer(out, header.torch_ticks)?;
    put_integer(out, header.energizer_ticks)?;
    put_zeros(out, 2)?;
    put_integer(out, header.score)
}

fn put_names(out: &mut Vec<u8>, header: &Header) -> Result<(), AllocError>
    requires name { IsAtMost 20 header.now.name }
    requires flags { AllByRecursion (IsAtMost 20) header.now.flags }
    ensures { OnOk result (out.new.items ≡ out.old.items ++ names_text header.now) }
{
    put_string(out, 20, &header.name)?;
    put_flags(out, header.flags.as_slice())
}

#[tactic(auto, unfolding(crate::specs::Writing::header_text))]
pub(crate) fn put_header(out: &mut Vec<u8>, others: u8, header: &Header) -> Result<(), AllocError>
    requires name { IsAtMost 20 header.now.name }
    requires flags { AllByRecursion (IsAtMost 20) header.now.flags }
    ensures { OnOk result (out.new.items ≡ out.old.items ++ header_text others header.now) }
{
    put_integer(out, -1)?;
    put_number(out, others)?;
    put_counters(out, header)?;
    put_names(out, header)?;
    put_integer(out, header.time_passed)?;
    put_integer(out, header.hundredths)?;
    put_flag(out, header.saved)?;
    put_zeros(out, 247)
}

#[tactic(auto, unfolding(crate::specs::Writing::properties_text))]
pub(crate) fn put_properties(out: &mut Vec<u8>, properties: &Properties) -> Result<(), AllocError>
    requires { IsAtMost 58 properties.now.message }
    ensures { OnOk result (out.new.items ≡ out.old.items ++ properties_text properties.now) }
{
    out.push(properties.max_shots)?;
    put_flag(out, properties.dark)?;
    out.extend_from_slice(&[
        properties.north,
        properties.south,
        properties.west,
        properties.east,
    ])?;
    put_flag(out, properties.re_enter)?;
    put_string(out, 58, &properties.message)?;
    out.extend_from_slice(&[properties.start_x, properties.start_y])?;
    put_integer(out, properties.time_limit)?;
    put_zeros(out, 16)
}

fn put_stat_number(out: &mut Vec<u8>, number: Option<u8>) -> Result<(), AllocError>
    ensures { OnOk result (out.new.items ≡ out.old.items ++ integer (number_or_none number)) }
{
    match number {
        None => put_integer(out, -1),
        Some(n) => put_number(out, n),
    }
}

fn put_code_length(out: &mut Vec<u8>, code: &Code) -> Result<(), AllocError>
    requires { FitsSigned w16 (code_length code.now) }
    ensures { OnOk result (out.new.items ≡ out.old.items ++ integer (code_length code.now)) }
{
    match code {
        Code::None => put_integer(out, 0),
        Code::Own(bytes) => put_integer(out, bytes.as_slice().len() as i16),
        Code::Same(n) => put_integer(out, -i16::from(*n)),
    }
}

fn put_code(out: &mut Vec<u8>, code: &Code) -> Result<(), AllocError>
    ensures { OnOk result (out.new.items ≡ out.old.items ++ code_text code.now) }
{
    match code {
        Code::Own(bytes) => out.extend_from_slice(bytes.as_slice()),
        _ => Ok(()),
    }
}

#[tactic(auto, unfolding(crate::specs::Writing::stat_text))]
pub(crate) fn put_stat(out: &mut Vec<u8>, stat: &StatData) -> Result<(), AllocError>
    requires { FitsSigned w16 (code_length stat.now.code) }
    ensures { OnOk result (out.new.items ≡ out.old.items ++ stat_text stat.now) }
{
    out.extend_from_slice(&[stat.x, stat.y])?;
    put_integer(out, stat.step_x)?;
    put_integer(out, stat.step_y)?;
    put_integer(out, stat.cycle)?;
    out.extend_from_slice(&[stat.p1, stat.p2, stat.p3])?;
    put_stat_number(out, stat.follower)?;
    put_stat_number(out, stat.leader)?;
    out.extend_from_slice(&[stat.under.element, stat.under.colour])?;
    put_zeros(out, 4)?;
    put_integer(out, stat.position)?;
    put_code_length(out, &stat.code)?;
    put_zeros(out, 8)?;
    put_code(out, &stat.code)
}
