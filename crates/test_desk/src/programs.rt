//! Programs of objects as they are read at a place. What is found is numbers: which of its kind it is, and its parts.
use crate::sheet::Sheet;
use std::alloc::AllocError;
use zed_oop_syntax::{
    Counter, Heading, Instruction, OopCommand, Program, Query, Test, TileKind, condition,
    direction, first_label, kind, label_at, label_place, line_after, line_end, next_command,
    standing_at, word_at,
};
use zed_types::Bytes;

/// The turns, and the course where there is one.
fn put_heading(sheet: &mut Sheet, number: u8, heading: &Heading) {
    sheet.show(&number);
    for turn in heading.turns.as_slice() {
        sheet.show(&(*turn as u8))
    }
    match heading.course {
        Some(course) => sheet.show(&Some(course as u8)),
        None => sheet.show(&false),
    }
}

fn put_kind(sheet: &mut Sheet, found: Option<TileKind>) {
    match found {
        Some(kind) => sheet.show(&(kind.colour, kind.element)),
        None => sheet.show(&false),
    }
}

fn put_bytes(sheet: &mut Sheet, number: u8, bytes: &Bytes) {
    sheet.show(&number);
    sheet.show(&bytes.as_slice())
}

fn put_count(sheet: &mut Sheet, number: u8, counter: Option<Counter>, count: u16) {
    sheet.show(&number);
    match counter {
        Some(counter) => sheet.show(&(counter as u8)),
        None => sheet.show(&false),
    }
    sheet.show(&count)
}

fn put_query(sheet: &mut Sheet, query: &Query) {
    sheet.show(&query.negated);
    match &query.test {
        Test::Aligned => sheet.show(&0_u8),
        Test::Contact => sheet.show(&1_u8),
        Test::Blocked(heading) => put_heading(sheet, 2, heading),
        Test::Any(kind) => {
            sheet.show(&3_u8);
            put_kind(sheet, *kind)
        }
        Test::Energized => sheet.show(&4_u8),
        Test::Flag(word) => put_bytes(sheet, 5, word),
    }
}

/// A command that isn't a single word and no number.
fn put_doing(sheet: &mut Sheet, command: &OopCommand) {
    match command {
        OopCommand::If(query) => {
            sheet.show(&6_u8);
            put_query(sheet, query)
        }
        OopCommand::Become(kind) => {
            sheet.show(&18_u8);
            put_kind(sheet, *kind)
        }
        OopCommand::Put(heading, kind) => {
            put_heading(sheet, 20, heading);
            put_kind(sheet, *kind)
        }
        OopCommand::Change(kind, other) => {
            sheet.show(&21_u8);
            put_kind(sheet, *kind);
            put_kind(sheet, *other)
        }
        _ => {}
    }
}

fn put_command(sheet: &mut Sheet, command: &OopCommand) {
    match command {
        OopCommand::Go(heading) => put_heading(sheet, 0, heading),
        OopCommand::Try(heading) => put_heading(sheet, 1, heading),
        OopCommand::Walk(heading) => put_heading(sheet, 2, heading),
        OopCommand::Shoot(heading) => put_heading(sheet, 3, heading),
        OopCommand::Set(word) => put_bytes(sheet, 4, word),
        OopCommand::Clear(word) => put_bytes(sheet, 5, word),
        OopCommand::Give(counter, count) => put_count(sheet, 7, *counter, *count),
        OopCommand::Take(counter, count) => put_count(sheet, 8, *counter, *count),
        OopCommand::End => sheet.show(&9_u8),
        OopCommand::EndGame => sheet.show(&10_u8),
        OopCommand::Idle => sheet.show(&11_u8),
        OopCommand::Restart => sheet.show(&12_u8),
        OopCommand::Send(word) => put_bytes(sheet, 13, word),
        OopCommand::Zap(word) => put_bytes(sheet, 14, word),
        OopCommand::Restore(word) => put_bytes(sheet, 15, word),
        OopCommand::Lock => sheet.show(&16_u8),
        OopCommand::Unlock => sheet.show(&17_u8),
        OopCommand::Die => sheet.show(&19_u8),
        OopCommand::Cycle(count) => sheet.show(&(22_u8, *count)),
        OopCommand::Char(count) => sheet.show(&(23_u8, *count)),
        OopCommand::Bind(word) => put_bytes(sheet, 24, word),
        OopCommand::Nothing => sheet.show(&25_u8),
        OopCommand::Other(word) => put_bytes(sheet, 26, word),
        doing => put_doing(sheet, doing),
    }
}

fn put_instruction(sheet: &mut Sheet, found: &Instruction) {
    match found {
        Instruction::End => sheet.show(&0_u8),
        Instruction::Skipped => sheet.show(&1_u8),
        Instruction::Blank => sheet.show(&2_u8),
        Instruction::Step(heading) => put_heading(sheet, 3, heading),
        Instruction::Attempt(heading) => put_heading(sheet, 4, heading),
        Instruction::Command => sheet.show(&5_u8),
        Instruction::Message(bytes) => put_bytes(sheet, 6, bytes),
    }
}

/// Each line of a program: its kind, where it begins and ends, and its text.
fn put_lines(sheet: &mut Sheet, program: &[u8]) -> Result<usize, AllocError> {
    let parsed = Program::parse(sheet.alloc(), program)?;
    for line in parsed.lines.as_slice() {
        sheet.show(&(line.kind as u8, line.start, line_end(program, line.start)));
        sheet.show(&line.text)
    }
    Ok(program.len())
}

/// Where messages to a label lead, the place of the first such label, and whether one stands at a place with a mark.
fn put_label(sheet: &mut Sheet, program: &[u8], at: usize) -> usize {
    let mark = sheet.short().to_le_bytes()[0];
    let label = sheet.bytes();
    sheet.show(&label_place(program, label.as_slice()));
    sheet.show(&first_label(program, label.as_slice()));
    sheet.show(&label_at(mark, program, at, label.as_slice()));
    program.len()
}

fn put_word(sheet: &mut Sheet, program: &[u8], at: usize) -> Result<usize, AllocError> {
    let (word, end) = word_at(sheet.alloc(), program, at)?;
    put_bytes(sheet, 0, &word);
    Ok(end)
}

fn put_direction(sheet: &mut Sheet, program: &[u8], at: usize) -> Result<usize, AllocError> {
    let (heading, end) = direction(sheet.alloc(), program, at)?;
    put_heading(sheet, 0, &heading);
    Ok(end)
}

fn put_kind_there(sheet: &mut Sheet, program: &[u8], at: usize) -> usize {
    let is_player = sheet.number() == 1;
    let (found, end) = kind(program, at, is_player);
    put_kind(sheet, found);
    end
}

fn put_condition(sheet: &mut Sheet, program: &[u8], at: usize) -> Result<usize, AllocError> {
    let (query, end) = condition(sheet.alloc(), program, at)?;
    put_query(sheet, &query);
    Ok(end)
}

fn put_next_command(sheet: &mut Sheet, program: &[u8], at: usize) -> Result<usize, AllocError> {
    let (found, end) = next_command(sheet.alloc(), program, at)?;
    if let Some(command) = found {
        put_command(sheet, &command)
    }
    Ok(end)
}

fn put_standing(sheet: &mut Sheet, program: &[u8], at: usize) -> Result<usize, AllocError> {
    let (found, end) = standing_at(sheet.alloc(), program, at)?;
    put_instruction(sheet, &found);
    Ok(end)
}

/// What stands at a place of a program. Where it ends comes last.
pub fn put_program(sheet: &mut Sheet) {
    let act = sheet.number();
    let at = sheet.size();
    let bytes = sheet.bytes();
    let program = bytes.as_slice();
    let end = match act {
        0 => put_word(sheet, program, at),
        1 => put_direction(sheet, program, at),
        2 => Ok(put_kind_there(sheet, program, at)),
        3 => put_condition(sheet, program, at),
        4 => put_next_command(sheet, program, at),
        5 => put_standing(sheet, program, at),
        6 => {
            sheet.show(&line_end(program, at));
            Ok(line_after(program, at))
        }
        7 => put_lines(sheet, program),
        _ => Ok(put_label(sheet, program, at)),
    };
    sheet.show(&end)
}
