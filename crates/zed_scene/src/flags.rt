//! Flags.
ghost use Rattle.std.specs.Prelude.{◌≡◌, ◌≢◌, ◌<◌, IfSome, OnOk, OnErr, [], if◌then◌else◌, length, position};
ghost use Rattle.std.specs.Str.{bytes_eq};
ghost use Rattle.zed_scene.specs.Flags.{cut, flagged, has_flag, is_free, unflagged, with_flags};

use crate::scene::Scene;
use std::alloc::{AllocError, Global};
use zed_types::{Bytes, Seq};

/// Whether a flag has a word.
pub fn has_flag(flags: &[Bytes], word: &[u8]) -> bool
    ensures result { result ≡ has_flag flags.now word.now }
{
    flags.iter().any(|f| f.as_slice() == word)
}

/// A word without its end past 20 bytes.
fn cut(word: &[u8]) -> &[u8]
    ensures { result.now ≡ cut word.now }
{
    if word.len() > 20 { &word[..20] } else { word }
}

/// The first empty flag.
fn first_free(flags: &[Bytes]) -> Option<usize>
    ensures result { result ≡ position is_free flags.now }
    ensures within { IfSome result (λ i. i < length flags.now) }
{
    flags.iter().position(|f| f.as_slice().is_empty())
}

/// Puts a word into the first empty flag, if none has it. Memory only if that changes a flag.
#[tactic(auto, unfolding(crate::specs::Flags::flagged), using(crate::proofs::FlagLemmas::flag_changes))]
fn put_flag(alloc: Global, flags: &mut Seq<Bytes>, word: &[u8]) -> Result<(), AllocError>
    ensures result { OnOk result (flags.new ≡ flagged word.now flags.old) }
    ensures within { length flags.new ≡ length flags.old }
    ensures kept { OnErr result (flags.new ≡ flags.old) }
    ensures memory_only_when { OnErr result (flagged word.now flags.old ≢ flags.old) }
{
    if !has_flag(flags.as_slice(), word) {
        if let Some(i) = first_free(flags.as_slice()) {
            let own = Bytes::from_slice(alloc, word)?;
            flags.set(i, own);
        }
    }
    Ok(())
}

fn empty_if(flag: &mut Bytes, word: &[u8], empty: Bytes)
    requires { empty ≡ [] }
    ensures { flag.new ≡ (if bytes_eq flag.old word.now then [] else flag.old) }
{
    if flag.as_slice() == word {
        *flag = empty;
    }
}

/// Empties the flags that have a word.
#[tactic(auto, unfolding(crate::specs::Flags::unflagged))]
fn empty_flags(alloc: Global, flags: &mut [Bytes], word: &[u8])
    ensures result { flags.new ≡ unflagged word.now flags.old }
    ensures within { length flags.new ≡ length flags.old }
{
    for f in flags.iter_mut() {
        empty_if(f, word, Bytes::new(Vec::new(alloc)));
    }
}

impl Scene {
    /// Puts a word, cut to 20 bytes, into the first empty flag, if none has it. Memory comes only
    /// if that would change a flag, and changes nothing.
    pub fn set_flag(&mut self, alloc: Global, word: &[u8]) -> Result<(), AllocError>
        ensures result { OnOk result
            (self.new ≡ with_flags (flagged (cut word.now) self.old.flags) self.old) }
        ensures kept { OnErr result (self.new ≡ self.old) }
        ensures memory_only_when { OnErr result
            (flagged (cut word.now) self.old.flags ≢ self.old.flags) }
    {
        put_flag(alloc, &mut self.flags, cut(word))
    }

    /// Empties each flag that has a word, cut to 20 bytes. It takes no memory.
    pub fn clear_flag(&mut self, alloc: Global, word: &[u8])
        ensures result { self.new
            ≡ with_flags (unflagged (cut word.now) self.old.flags) self.old }
    {
        empty_flags(alloc, self.flags.as_mut_slice(), cut(word));
    }
}
