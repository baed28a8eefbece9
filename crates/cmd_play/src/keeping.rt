//! Playtests kept in files, and read from them.
ghost use Rattle.std.specs.Prelude.{[], ◌∷◌, ◌≡◌, ◌⊎◌, ◌<◌, ◌++◌, IfErr, IfOk, OnErr, OnOk, Some, length, map};
ghost use Rattle.zed_host.specs.Calls.{Writing};
ghost use Rattle.zed_host.specs.Counting.{Rose};
ghost use Rattle.zed_host.specs.HostContents.{HalfWritten, HostContents, StillTells, file_in, with_file};
ghost use Rattle.zed_files.specs.Asked.{Asks, named, refusal_in};
ghost use Rattle.zed_files.specs.Faults.{TellsFailures};
ghost use Rattle.zed_files.specs.Texts.{text_in};
ghost use Rattle.zed_terminal.specs.Course.{point};
ghost use Rattle.zed_terminal.specs.Record.{moves_in, spelled_moves, spelled_all, words_in};
ghost use Rattle.cmd_play.specs.Asking.{AsksBehind, AsksKept, AsksNoMore, keeping};
ghost use Rattle.cmd_play.specs.Kept.{HalfKept, HalfRecorded, IsRecorded, bytes_or_none, kept_in, key_bytes, made_for, with_kept, with_record};

use std::alloc::{AllocError, Global};
use zed_files::Refusal;
use zed_host::{Host, ReadError};
use zed_terminal::{Move, Tape, moves_in, put_moves, put_words, words_in};

/// The bytes of the file of a name, or none where there is no such file.
fn bytes_of<H: Host>(alloc: Global, host: &mut H, name: &str) -> Result<Vec<u8>, Refusal>
    ensures bytes { (t : HostContents) → H.contents host.old ≡ Some t
        → IfOk result (λ bytes. bytes.items ≡ bytes_or_none (file_in t name.now)) }
    ensures kept { H.contents host.new ≡ H.contents host.old }
    ensures err { IfErr result (λ e. (e ≡ Refusal.Memory)
        ⊎ ((e ≡ Refusal.File) × Rose (H.faults host.old) (H.faults host.new))) }
    ensures asked { AsksKept H.called (Some name.now) (refusal_in result) host.old host.new }
    ensures failures { TellsFailures H.faults H.failed result host.old host.new }
{
    match host.read(name) {
        Ok(bytes) => Ok(bytes),
        Err(ReadError::NoFile) => Ok(Vec::new(alloc)),
        Err(ReadError::Memory) => Err(Refusal::Memory),
        Err(ReadError::File) => Err(Refusal::File),
    }
}

/// What is kept in the file of a name, if one is named and there is one.
fn kept_in<H: Host>(alloc: Global, host: &mut H, name: Option<&str>) -> Result<Vec<u8>, Refusal>
    ensures bytes { (t : HostContents) → H.contents host.old ≡ Some t
        → IfOk result (λ bytes. bytes.items ≡ kept_in t (text_in name.entry)) }
    ensures kept { H.contents host.new ≡ H.contents host.old }
    ensures err { IfErr result (λ e. (e ≡ Refusal.Memory)
        ⊎ ((e ≡ Refusal.File) × Rose (H.faults host.old) (H.faults host.new))) }
    ensures asked { AsksKept H.called (text_in name.entry) (refusal_in result) host.old host.new }
    ensures failures { TellsFailures H.faults H.failed result host.old host.new }
{
    match name {
        Some(name) => bytes_of(alloc, host, name),
        None => Ok(Vec::new(alloc)),
    }
}

/// Keeps bytes in the file of a name.
fn keep_in<H: Host>(host: &mut H, name: &str, bytes: &[u8]) -> Result<(), Refusal>
    ensures ok { (t : HostContents) → H.contents host.old ≡ Some t
        → OnOk result (H.contents host.new ≡ Some (with_file name.now bytes.now t)) }
    ensures half { (t : HostContents) → H.contents host.old ≡ Some t
        → OnErr result (StillTells (HalfWritten name.now bytes.now t) (H.contents host.new)) }
    ensures err { IfErr result (λ e. (e ≡ Refusal.File)
        × Rose (H.faults host.old) (H.faults host.new)) }
    ensures asked { Asks H.called [] (Writing name.now ∷ []) (refusal_in result) host.old host.new }
    ensures failures { TellsFailures H.faults H.failed result host.old host.new }
{
    match host.write(name, bytes) {
        Ok(()) => Ok(()),
        Err(_) => Err(Refusal::File),
    }
}

/// Keeps bytes in the file of a name, if one is named.
fn keep<H: Host>(host: &mut H, name: Option<&str>, bytes: &[u8]) -> Result<(), Refusal>
    ensures ok { (t : HostContents) → H.contents host.old ≡ Some t → OnOk result
        (H.contents host.new ≡ Some (with_kept (text_in name.entry) bytes.now t)) }
    ensures half { (t : HostContents) → H.contents host.old ≡ Some t → OnErr result
        (StillTells (HalfKept (text_in name.entry) bytes.now t) (H.contents host.new)) }
    ensures err { IfErr result (λ e. (e ≡ Refusal.File)
        × Rose (H.faults host.old) (H.faults host.new)) }
    ensures asked { Asks H.called [] (map (λ name. Writing name) (named (text_in name.entry)))
        (refusal_in result) host.old host.new }
    ensures failures { TellsFailures H.faults H.failed result host.old host.new }
{
    match name {
        Some(name) => keep_in(host, name, bytes),
        None => Ok(()),
    }
}

/// The file of moves that were made, and of others behind them.
fn key_bytes_of(alloc: Global, keys: &[Move], rest: &[Move]) -> Result<Vec<u8>, AllocError>
    ensures ok { IfOk result (λ bytes. bytes.items ≡ spelled_moves keys.now ++ spelled_moves rest.now) }
    ensures memory_only_when { OnErr result
        (0 < length (spelled_moves keys.now ++ spelled_moves rest.now)) }
{
    let mut bytes = Vec::new(alloc);
    put_moves(&mut bytes, keys)?;
    put_moves(&mut bytes, rest)?;
    Ok(bytes)
}

/// What was kept of a playtest: its words of chance, and its moves.
#[derive(Drop)]
pub(crate) struct Kept {
    pub words: Vec<u16>,
    pub keys: Vec<Move>,
}

/// What is kept in the files of two names, as far as there are such.
pub(crate) fn read_kept<H: Host>(
    alloc: Global,
    host: &mut H,
    words: Option<&str>,
    keys: Option<&str>,
) -> Result<Kept, Refusal>
    ensures read { (t : HostContents) → H.contents host.old ≡ Some t
        → IfOk result (λ kept. (kept.words.items ≡ words_in (kept_in t (text_in words.entry)))
        × (kept.keys.items ≡ moves_in (kept_in t (text_in keys.entry)))) }
    ensures kept { H.contents host.new ≡ H.contents host.old }
    ensures err { IfErr result (λ e. (e ≡ Refusal.Memory)
        ⊎ ((e ≡ Refusal.File) × Rose (H.faults host.old) (H.faults host.new))) }
    ensures asked { AsksBehind H.called (text_in words.entry) (text_in keys.entry)
        AsksNoMore (refusal_in result) host.old host.new }
    ensures failures { TellsFailures H.faults H.failed result host.old host.new }
{
    let word_bytes = kept_in(alloc, host, words)?;
    let key_bytes = kept_in(alloc, host, keys)?;
    let words = words_in(alloc, word_bytes.as_slice())?;
    let keys = moves_in(alloc, key_bytes.as_slice())?;
    Ok(Kept { words, keys })
}

/// The file of words that came.
fn word_bytes_of(alloc: Global, words: &[u16]) -> Result<Vec<u8>, AllocError>
    ensures ok { IfOk result (λ bytes. bytes.items ≡ spelled_all words.now) }
    ensures memory_only_when { OnErr result (0 < length (spelled_all words.now)) }
{
    let mut bytes = Vec::new(alloc);
    put_words(&mut bytes, words)?;
    Ok(bytes)
}

/// The same, if it is named.
fn words_for(alloc: Global, name: Option<&str>, words: &[u16]) -> Result<Vec<u8>, AllocError>
    ensures ok { IfOk result (λ bytes. bytes.items
        ≡ made_for (text_in name.entry) (spelled_all words.now)) }
    ensures memory_only_when { OnErr result
        (0 < length (made_for (text_in name.entry) (spelled_all words.now))) }
{
    match name {
        Some(_) => word_bytes_of(alloc, words),
        None => Ok(Vec::new(alloc)),
    }
}

/// The file of moves that were made, and of others behind them, if it is named.
fn keys_for(
    alloc: Global,
    name: Option<&str>,
    keys: &[Move],
    rest: &[Move],
) -> Result<Vec<u8>, AllocError>
    ensures ok { IfOk result (λ bytes. bytes.items
        ≡ made_for (text_in name.entry) (spelled_moves keys.now ++ spelled_moves rest.now)) }
    ensures memory_only_when { OnErr result
        (0 < length (made_for (text_in name.entry) (spelled_moves keys.now ++ spelled_moves rest.now))) }
{
    match name {
        Some(_) => key_bytes_of(alloc, keys, rest),
        None => Ok(Vec::new(alloc)),
    }
}

/// Keeps bytes in the files of two names, the one behind the other.
fn keep_both<H: Host>(
    host: &mut H,
    words: Option<&str>,
    keys: Option<&str>,
    word_bytes: &[u8],
    key_bytes: &[u8],
) -> Result<(), Refusal>
    ensures ok { (t : HostContents) → H.contents host.old ≡ Some t → OnOk result
        (H.contents host.new ≡ Some (with_kept (text_in keys.entry) key_bytes.now
        (with_kept (text_in words.entry) word_bytes.now t))) }
    ensures half { (t : HostContents) → H.contents host.old ≡ Some t → OnErr result (StillTells
        (λ u. HalfKept (text_in words.entry) word_bytes.now t u ⊎ HalfKept (text_in keys.entry)
        key_bytes.now (with_kept (text_in words.entry) word_bytes.now t) u) (H.contents host.new)) }
    ensures err { IfErr result (λ e. (e ≡ Refusal.File)
        × Rose (H.faults host.old) (H.faults host.new)) }
    ensures asked { Asks H.called [] (keeping (text_in words.entry) (text_in keys.entry))
        (refusal_in result) host.old host.new }
    ensures failures { TellsFailures H.faults H.failed result host.old host.new }
{
    keep(host, words, word_bytes)?;
    keep(host, keys, key_bytes)
}

/// Keeps a playtest in the files of two names, with keys behind those that were played. Memory comes
/// only if there is something to keep in a file that is named.
pub(crate) fn keep_all<H: Host>(
    alloc: Global,
    host: &mut H,
    words: Option<&str>,
    keys: Option<&str>,
    tape: &Tape,
    rest: &[Move],
) -> Result<(), Refusal>
    ensures ok { (t : HostContents) → H.contents host.old ≡ Some t → OnOk result
        (H.contents host.new ≡ Some (with_record
        (text_in words.entry) (text_in keys.entry) (point tape.now) rest.now t)) }
    ensures half { (t : HostContents) → H.contents host.old ≡ Some t
        → IfErr result (λ e. e ≡ Refusal.File → StillTells (HalfRecorded
        (text_in words.entry) (text_in keys.entry) (point tape.now) rest.now t) (H.contents host.new)) }
    ensures err { IfErr result (λ e.
        ((e ≡ Refusal.Memory) × (H.contents host.new ≡ H.contents host.old))
        ⊎ ((e ≡ Refusal.File) × Rose (H.faults host.old) (H.faults host.new))) }
    ensures memory_only_when { IfErr result (λ e. e ≡ Refusal.Memory → IsRecorded
        (text_in words.entry) (text_in keys.entry) (point tape.now) rest.now) }
    ensures asked { Asks H.called [] (keeping (text_in words.entry) (text_in keys.entry))
        (refusal_in result) host.old host.new }
    ensures failures { TellsFailures H.faults H.failed result host.old host.new }
{
    let word_bytes = words_for(alloc, words, tape.words.as_slice())?;
    let key_bytes = keys_for(alloc, keys, tape.keys.as_slice(), rest)?;
    keep_both(
        host,
        words,
        keys,
        word_bytes.as_slice(),
        key_bytes.as_slice(),
    )
}
