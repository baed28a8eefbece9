//! Where the stats of a world come from. What an editor cuts and pastes elsewhere is a stat made anew, and keeps the text of the one that it
//! was.
use crate::features::{Entry, Feature, Likeness, Place, Rule, feature_of};
use crate::planning::Task;
use crate::programs::{owner_of, program};
use crate::sight::SeenBoard;
use std::alloc::{AllocError, Global};
use std::cmp::Ordering;
use std::collections::{BTreeMap, BTreeSet};
use zed_types::TextId;
use zed_world::BoardData;

/// The rules by which stats that were moved are found again, one after the other.
const RULES: [Rule; 6] = [
    Rule::OnItsBoard(Likeness::Program),
    Rule::OnItsBoard(Likeness::Name),
    Rule::OnAllBoards(Likeness::Program),
    Rule::OnAllBoards(Likeness::Name),
    Rule::OnItsBoard(Likeness::Rest),
    Rule::OnAllBoards(Likeness::Rest),
];

/// The text of the stat that one comes from, if that has one, and what its program reads.
#[derive(Clone, Copy)]
pub(crate) struct Origin<'w> {
    pub text: Option<TextId>,
    pub program: &'w [u8],
}

/// A stat, and the one before that it is most like.
#[derive(Clone, Copy)]
struct Pair {
    stat: Place,
    like: Place,
}

// All such pairs, of all boards.
fn pairs_of(alloc: Global, tasks: &[Task]) -> Result<Vec<Pair>, AllocError> {
    let mut pairs = Vec::new(alloc);
    for (board, task) in tasks.iter().enumerate() {
        if let Some(board_before) = task.number_before {
            for (number, like) in task.stats.aligned.iter().enumerate() {
                if let Some(number_before) = like {
                    pairs.push(Pair {
                        stat: Place { board, number },
                        like: Place {
                            board: board_before,
                            number: *number_before,
                        },
                    })?;
                }
            }
        }
    }
    Ok(pairs)
}

fn has_own_program(task: &Task, number: usize) -> bool {
    owner_of(task.after, number) == Some(number)
}

// Whether the stat of a pair has a program, and stands where the other one stood or has the same program.
fn is_near(tasks: &[Task], pair: Pair) -> bool {
    let (old, new) = (pair.like.number, pair.stat.number);
    let Some(task) = tasks.get(pair.stat.board) else {
        return false;
    };
    let before = task.before.stats.as_slice().get(old);
    let (Some(was), Some(is)) = (before, task.after.stats.as_slice().get(new)) else {
        return false;
    };
    let is_in_place = was.x == is.x && was.y == is.y;
    has_own_program(task, new)
        && (is_in_place || program(task.before, old) == program(task.after, new))
}

// What a rule looks at in the stats that aren't found again, before and then, in order.
#[derive(Drop)]
struct Unfound<'w> {
    rule: Rule,
    before: Vec<Feature<'w>>,
    after: Vec<Feature<'w>>,
}

impl<'w> Unfound<'w> {
    // Whether the two stats of a pair differ in what the rule looks at, and both features are on their board before and then: two stats of it
    // changed places.
    fn has_exchanged(&self, tasks: &[Task<'w>], pair: Pair) -> bool {
        let Some(task) = tasks.get(pair.stat.board) else {
            return false;
        };
        let number = task.number_before;
        let was = feature_of(self.rule, number, task.before, pair.like.number);
        let is = feature_of(self.rule, number, task.after, pair.stat.number);
        let (Some(was), Some(is)) = (was, is) else {
            return false;
        };
        was != is
            && self.after.binary_search(&was).is_ok()
            && self.before.binary_search(&is).is_ok()
    }
}

fn features_of<'w>(alloc: Global, entries: &[Entry<'w>]) -> Result<Vec<Feature<'w>>, AllocError> {
    let mut features = Vec::new(alloc);
    for entry in entries {
        features.push(entry.feature)?;
    }
    Ok(features)
}

/// Which stat before each one comes from. No two come from one.
#[derive(Drop)]
pub(crate) struct Origins<'w> {
    before: &'w [BoardData],
    seen: &'w [SeenBoard],
    origins: BTreeMap<Place, Place>,
    used: BTreeSet<Place>,
}

impl<'w> Origins<'w> {
    // Finds the origin of a stat, unless it has one, or that one is another's.
    fn link(&mut self, stat: Place, origin: Place) -> Result<(), AllocError> {
        if !self.origins.contains_key(&stat) && !self.used.contains(&origin) {
            self.origins.insert(stat, origin)?;
            self.used.insert(origin)?;
        }
        Ok(())
    }

    // What a rule looks at in the stats before that are nobody's origin yet, in order.
    fn entries_before(&self, alloc: Global, rule: Rule) -> Result<Vec<Entry<'w>>, AllocError> {
        let mut entries = Vec::new(alloc);
        for (board, data) in self.before.iter().enumerate() {
            for number in 1..data.stats.as_slice().len() {
                let place = Place { board, number };
                if !self.used.contains(&place) {
                    if let Some(feature) = feature_of(rule, Some(board), data, number) {
                        entries.push(Entry { feature, place })?;
                    }
                }
            }
        }
        entries.sort()?;
        Ok(entries)
    }

    // What it looks at in the stats that have no origin yet.
    fn entries_after(
        &self,
        alloc: Global,
        tasks: &[Task<'w>],
        rule: Rule,
    ) -> Result<Vec<Entry<'w>>, AllocError> {
        let mut entries = Vec::new(alloc);
        for (board, task) in tasks.iter().enumerate() {
            for number in 1..task.after.stats.as_slice().len() {
                let place = Place { board, number };
                if has_own_program(task, number) && !self.origins.contains_key(&place) {
                    let feature = feature_of(rule, task.number_before, task.after, number);
                    if let Some(feature) = feature {
                        entries.push(Entry { feature, place })?;
                    }
                }
            }
        }
        entries.sort()?;
        Ok(entries)
    }

    // Links stats that a rule takes for the same ones: of several, the first with the first.
    fn link_by(&mut self, alloc: Global, tasks: &[Task<'w>], rule: Rule) -> Result<(), AllocError> {
        let new = self.entries_after(alloc, tasks, rule)?;
        if new.is_empty() {
            return Ok(());
        }
        let old = self.entries_before(alloc, rule)?;
        let (mut i, mut j) = (0usize, 0usize);
        for _ in 0..old.len().saturating_add(new.len()) {
            let (Some(was), Some(is)) = (old.get(i), new.get(j)) else {
                break;
            };
            let order = was.feature.cmp(&is.feature);
            if order == Ordering::Equal {
                self.link(is.place, was.place)?;
            }
            if order != Ordering::Greater {
                i = i.saturating_add(1);
            }
            if order != Ordering::Less {
                j = j.saturating_add(1);
            }
        }
        Ok(())
    }

    fn unfound(
        &self,
        alloc: Global,
        tasks: &[Task<'w>],
        rule: Rule,
    ) -> Result<Unfound<'w>, AllocError> {
        let before = features_of(alloc, &self.entries_before(alloc, rule)?)?;
        let after = features_of(alloc, &self.entries_after(alloc, tasks, rule)?)?;
        Ok(Unfound {
            rule,
            before,
            after,
        })
    }

    // Links the pairs that are near, unless their programs or names changed places with others.
    fn link_near(
        &mut self,
        alloc: Global,
        tasks: &[Task<'w>],
        pairs: &[Pair],
    ) -> Result<(), AllocError> {
        let programs = self.unfound(alloc, tasks, Rule::OnItsBoard(Likeness::Program))?;
        let names = self.unfound(alloc, tasks, Rule::OnItsBoard(Likeness::Name))?;
        for pair in pairs {
            if is_near(tasks, *pair)
                && !programs.has_exchanged(tasks, *pair)
                && !names.has_exchanged(tasks, *pair)
            {
                self.link(pair.stat, pair.like)?;
            }
        }
        Ok(())
    }

    /// Finds the origins of the stats of all boards. The boards before are seen so.
    pub(crate) fn find(
        alloc: Global,
        tasks: &[Task<'w>],
        seen: &'w [SeenBoard],
        before: &'w [BoardData],
    ) -> Result<Origins<'w>, AllocError> {
        let mut origins = Origins {
            before,
            seen,
            origins: BTreeMap::new(alloc),
            used: BTreeSet::new(alloc),
        };
        let pairs = pairs_of(alloc, tasks)?;
        let unmoved = Rule::OnItsBoard(Likeness::PlaceAndProgram);
        origins.link_by(alloc, tasks, unmoved)?;
        origins.link_near(alloc, tasks, &pairs)?;
        for rule in RULES {
            origins.link_by(alloc, tasks, rule)?;
        }
        // the players, what has no program, and what has changed quite
        for pair in &pairs {
            origins.link(pair.stat, pair.like)?;
        }
        Ok(origins)
    }

    /// What a stat of a board comes from, if it does.
    pub(crate) fn of(&self, board: usize, number: usize) -> Option<Origin<'w>> {
        let place = *self.origins.get(&Place { board, number })?;
        let seen = self.seen.get(place.board)?.stats.get(place.number)?;
        let data = self.before.get(place.board)?;
        Some(Origin {
            text: seen.text,
            program: program(data, place.number),
        })
    }
}
