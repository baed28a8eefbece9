//! Copies of a board.
ghost use Rattle.std.specs.Prelude.{◌≡◌, ◌≢◌, IfOk, OnOk, OnErr, length};

use crate::scene::Scene;
use crate::scroll::Scroll;
use crate::stat::Stat;
use std::alloc::{AllocError, Global};
use zed_types::{Bytes, Seq};

fn copy_stats(alloc: Global, stats: &[Stat]) -> Result<Seq<Stat>, AllocError>
    ensures { IfOk result (λ c. c ≡ stats.now) }
{
    Ok(Seq::from_vec(Vec::from_slice(alloc, stats)?))
}

fn copy_all(alloc: Global, strings: &[Bytes]) -> Result<Seq<Bytes>, AllocError>
    ensures { IfOk result (λ c. c ≡ strings.now) }
{
    let mut out = Seq::new(alloc);
    for string in strings {
        out.push(string.copy()?)?;
    }
    Ok(out)
}

/// Makes one list of stats equal to another, in its own room if both have as many.
fn copy_stats_onto(alloc: Global, into: &mut Seq<Stat>, stats: &[Stat]) -> Result<(), AllocError>
    ensures result { OnOk result (into.new ≡ stats.now) }
    ensures memory_only_when { OnErr result (into.old ≢ stats.now) }
{
    if into.as_slice().len() == stats.len() {
        into.as_mut_slice().copy_from_slice(stats);
    } else {
        *into = copy_stats(alloc, stats)?;
    }
    Ok(())
}

/// Makes one string equal to another, which takes memory only if they differ.
fn copy_one_onto(into: &mut Bytes, string: &Bytes) -> Result<(), AllocError>
    ensures result { OnOk result (into.new ≡ string.now) }
    ensures memory_only_when { OnErr result (into.old ≢ string.now) }
{
    if !into.is_same(string) {
        *into = string.copy()?;
    }
    Ok(())
}

/// Makes strings equal to as many others, one by one.
fn copy_each_onto(into: &mut [Bytes], strings: &[Bytes]) -> Result<(), AllocError>
    requires { length into.old ≡ length strings.now }
    ensures result { OnOk result (into.new ≡ strings.now) }
    ensures within { length into.new ≡ length into.old }
    ensures memory_only_when { OnErr result (into.old ≢ strings.now) }
{
    let mut i = 0;
    while i < strings.len() {
        copy_one_onto(&mut into[i], &strings[i])?;
        i += 1;
    }
    Ok(())
}

/// Makes a list of strings equal to another. If both have as many, this takes memory only for those
/// that differ.
fn copy_all_onto(alloc: Global, into: &mut Seq<Bytes>, strings: &[Bytes]) -> Result<(), AllocError>
    ensures result { OnOk result (into.new ≡ strings.now) }
    ensures within { length into.old ≡ length strings.now
        → length into.new ≡ length strings.now }
    ensures memory_only_when { OnErr result (into.old ≢ strings.now) }
{
    if into.as_slice().len() == strings.len() {
        copy_each_onto(into.as_mut_slice(), strings)
    } else {
        *into = copy_all(alloc, strings)?;
        Ok(())
    }
}

fn copy_scroll(alloc: Global, scroll: &Scroll) -> Result<Scroll, AllocError>
    ensures { IfOk result (λ c. c ≡ scroll.now) }
{
    let title = scroll.title.copy()?;
    let lines = copy_all(alloc, scroll.lines.as_slice())?;
    Ok(Scroll {
        speaker: scroll.speaker,
        title,
        lines,
    })
}

fn copy_scrolls(alloc: Global, scrolls: &[Scroll]) -> Result<Seq<Scroll>, AllocError>
    ensures { IfOk result (λ c. c ≡ scrolls.now) }
{
    let mut out = Seq::new(alloc);
    for scroll in scrolls {
        out.push(copy_scroll(alloc, scroll)?)?;
    }
    Ok(out)
}

/// Makes one scroll equal to another, which takes memory only if they differ.
fn copy_scroll_onto(alloc: Global, into: &mut Scroll, scroll: &Scroll) -> Result<(), AllocError>
    ensures result { OnOk result (into.new ≡ scroll.now) }
    ensures memory_only_when { OnErr result (into.old ≢ scroll.now) }
{
    copy_one_onto(&mut into.title, &scroll.title)?;
    copy_all_onto(alloc, &mut into.lines, scroll.lines.as_slice())?;
    into.speaker = scroll.speaker;
    Ok(())
}

/// Makes scrolls equal to as many others, one by one.
fn copy_each_scroll_onto(
    alloc: Global,
    into: &mut [Scroll],
    scrolls: &[Scroll],
) -> Result<(), AllocError>
    requires { length into.old ≡ length scrolls.now }
    ensures result { OnOk result (into.new ≡ scrolls.now) }
    ensures memory_only_when { OnErr result (into.old ≢ scrolls.now) }
{
    let mut i = 0;
    while i < scrolls.len() {
        copy_scroll_onto(alloc, &mut into[i], &scrolls[i])?;
        i += 1;
    }
    Ok(())
}

/// Makes a list of scrolls equal to another, which takes memory only if they differ.
fn copy_scrolls_onto(
    alloc: Global,
    into: &mut Seq<Scroll>,
    scrolls: &[Scroll],
) -> Result<(), AllocError>
    ensures result { OnOk result (into.new ≡ scrolls.now) }
    ensures memory_only_when { OnErr result (into.old ≢ scrolls.now) }
{
    if into.as_slice().len() == scrolls.len() {
        copy_each_scroll_onto(alloc, into.as_mut_slice(), scrolls)
    } else {
        *into = copy_scrolls(alloc, scrolls)?;
        Ok(())
    }
}

impl Scene {
    /// Becomes equal to another board. If both have as many stats and flags, this takes memory only
    /// for strings that differ. So it costs little if the other board was made from this one, and
    /// nothing if they are equal. If a growth is refused, it may be partly the other.
    pub fn copy_from(&mut self, alloc: Global, other: &Scene) -> Result<(), AllocError>
        ensures result { OnOk result (self.new ≡ other.now) }
        ensures memory_only_when { OnErr result (self.old ≢ other.now) }
    {
        copy_stats_onto(alloc, &mut self.stats, other.stats.as_slice())?;
        copy_all_onto(alloc, &mut self.programs, other.programs.as_slice())?;
        copy_all_onto(alloc, &mut self.flags, other.flags.as_slice())?;
        copy_scrolls_onto(alloc, &mut self.scrolls, other.scrolls.as_slice())?;
        self.tiles = other.tiles;
        self.counters = other.counters;
        self.ticking = other.ticking;
        self.acting = other.acting;
        self.running = other.running;
        Ok(())
    }

    /// An equal board, whose stats share programs as here.
    pub fn copy(&self, alloc: Global) -> Result<Scene, AllocError>
        ensures result { IfOk result (λ c. c ≡ self.now) }
    {
        let stats = copy_stats(alloc, self.stats.as_slice())?;
        let programs = copy_all(alloc, self.programs.as_slice())?;
        let flags = copy_all(alloc, self.flags.as_slice())?;
        let scrolls = copy_scrolls(alloc, self.scrolls.as_slice())?;
        Ok(Scene {
            tiles: self.tiles,
            stats,
            programs,
            counters: self.counters,
            flags,
            ticking: self.ticking,
            acting: self.acting,
            running: self.running,
            scrolls,
        })
    }
}
