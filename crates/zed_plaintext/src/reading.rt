//! The program of a text.
ghost use Rattle.std.specs.Prelude.{◌≡◌, ◌<◌, ◌⊎◌, IfErr, IfOk, MatchResult, Err, Ok, length};
ghost use Rattle.std.specs.Str.{chars};
ghost use Rattle.std.specs.Str.Lossy.{utf8_lossy};
ghost use Rattle.zed_plaintext.specs.Reading.{line_fed, program_in, spelled, unmarked as unmarked_of};

use crate::characters::byte_of;
use crate::error::TextError;
use crate::place::place_behind;
use std::alloc::{AllocError, Global};

// The characters of bytes; U+FFFD is in the place of those that are none.
fn characters_in(alloc: Global, text: &[u8]) -> Result<Vec<char>, AllocError>
    ensures { IfOk result (λ characters. characters.items ≡ chars (utf8_lossy text.now)) }
{
    let text = String::from_utf8_lossy(alloc, text)?;
    text.as_str().chars().collect(alloc)
}

// Characters without a byte order mark in front.
fn unmarked(characters: &[char]) -> &[char]
    ensures { result.now ≡ unmarked_of characters.now }
{
    if let Some('\u{feff}') = characters.first() {
        let (_, rest) = characters.split_at(1);
        return rest;
    }
    characters
}

// Characters with a line feed for each end of a line.
fn with_line_feeds(alloc: Global, characters: &[char]) -> Result<Vec<char>, AllocError>
    ensures { IfOk result (λ fed. fed.items ≡ line_fed characters.now) }
{
    let mut fed = Vec::new(alloc);
    let mut before = '\0';
    for character in characters {
        if *character == '\r' {
            fed.push('\n')?;
        } else if before != '\r' || *character != '\n' {
            fed.push(*character)?;
        }
        before = *character;
    }
    Ok(fed)
}

// The program that these characters spell.
#[tactic(auto, using(crate::proofs::Lists::one_more, crate::proofs::Lists::all_more), unfolding(crate::specs::Reading::spelled))]
fn spelled_program(alloc: Global, characters: &[char]) -> Result<Vec<u8>, TextError>
    ensures { MatchResult result
        (λ program. spelled characters.now ≡ Ok program.items)
        (λ e. (e ≡ TextError.Memory)
        ⊎ ((bad : _) × (e ≡ TextError.Bad bad) × (spelled characters.now ≡ Err bad))) }
{
    let mut program = Vec::new(alloc);
    for (i, character) in characters.iter().enumerate() {
        let Some(byte) = byte_of(*character) else {
            let (front, _) = characters.split_at(i);
            return Err(TextError::Bad(place_behind(front)));
        };
        program.push(byte)?;
    }
    Ok(program)
}

/// The program that a text spells: the text that `text_of` makes of a program reads back as that
/// program. A line of the text ends with a line feed, a carriage return, or a carriage return and a
/// line feed. A byte order mark at the front is left out. Bad at the first place with a character
/// that no program has, or with bytes that are no character in UTF-8; Memory.
#[tactic(auto, using(crate::proofs::Again::empty), unfolding(crate::specs::Reading::program_in))]
pub fn read_program(alloc: Global, text: &[u8]) -> Result<Vec<u8>, TextError>
    ensures program { MatchResult result
        (λ program. program_in text.now ≡ Ok program.items)
        (λ e. (e ≡ TextError.Memory)
        ⊎ ((bad : _) × (e ≡ TextError.Bad bad) × (program_in text.now ≡ Err bad))) }
    ensures memory_only_when { IfErr result (λ e.
        e ≡ TextError.Memory → 0 < length text.now) }
{
    if text.is_empty() {
        return Ok(Vec::new(alloc));
    }
    let characters = characters_in(alloc, text)?;
    let fed = with_line_feeds(alloc, unmarked(&characters))?;
    spelled_program(alloc, &fed)
}
