//! Lists that contracts see as lists.
ghost use Rattle.std.specs.Prelude.{◌≡◌, [], ◌∷◌, ◌++◌, OnOk, OnErr, length, take, drop, ◌≤◌, ◌<◌, ◌-◌, slice_set, slice_get, remove, Some};
ghost use Rattle.std.specs.Cmp.Lexicographic.{pointwise, lists_per, lists_equiv};
ghost use Rattle.std.specs.Borrow.{sem};
ghost use Rattle.zed_types.specs.Lending.{LendsElements};

use std::alloc::{AllocError, Global};
use std::marker::Model;

/// A list of values, which contracts see as a list.
#[derive(Drop)]
pub struct Seq<T> {
    items: Vec<T>,
}

impl<T> Model for Seq<T> {
    ghost use Rattle.std.specs.Prelude.{List};

    ghost Value = { List T };

    ghost view = { λ s. s.items.items };
}

impl<T: PartialEq> PartialEq for Seq<T> {
    ghost eq = { pointwise T.eq };

    ghost laws = { lists_per T.laws };

    fn eq(&self, other: &Seq<T>) -> bool {
        self.items.as_slice() == other.items.as_slice()
    }
}

impl<T: Eq> Eq for Seq<T> {
    ghost laws = { lists_equiv T.Eq.laws };
}

impl<T: Drop> Seq<T> {
    /// The empty list, which takes no memory.
    pub fn new(alloc: Global) -> Seq<T>
        ensures { result ≡ [] }
    {
        Seq {
            items: Vec::new(alloc),
        }
    }

    /// The elements of a vector, which takes no memory.
    pub fn from_vec(items: Vec<T>) -> Seq<T>
        ensures { result ≡ items.items }
    {
        Seq { items }
    }

    pub fn as_slice(&self) -> &[T]
        ensures { result.now ≡ self.now }
    {
        self.items.as_slice()
    }

    pub fn as_mut_slice(&mut self) -> &mut [T]
        ensures* writes_back { sem 𝓛 (LendsElements T.row self.entry result) }
        ensures value { result.now ≡ self.old }
    {
        self.items.as_mut_slice()
    }

    /// Puts an element before the element `i`.
    pub fn insert(&mut self, i: usize, x: T) -> Result<(), AllocError>
        requires { i ≤ length self.old }
        ensures ok { OnOk result (self.new ≡ take i self.old ++ x ∷ drop i self.old) }
        ensures err { OnErr result (self.new ≡ self.old) }
    {
        self.items.insert(i, x)?;
        Ok(())
    }

    /// Puts elements before the element `i`.
    pub fn insert_all(&mut self, i: usize, xs: Vec<T>) -> Result<(), AllocError>
        requires { i ≤ length self.old }
        ensures ok { OnOk result (self.new ≡ take i self.old ++ (xs.items ++ drop i self.old)) }
        ensures err { OnErr result (self.new ≡ self.old) }
    {
        let mut run = xs;
        self.items.reserve(run.len())?;
        let mut tail = self.items.split_off(i)?;
        self.items.append(&mut run).unwrap();
        self.items.append(&mut tail).unwrap();
        Ok(())
    }

    pub fn push(&mut self, x: T) -> Result<(), AllocError>
        ensures ok { OnOk result (self.new ≡ self.old ++ x ∷ []) }
        ensures err { OnErr result (self.new ≡ self.old) }
    {
        self.items.push(x)?;
        Ok(())
    }

    /// Replaces the element `i`.
    pub fn set(&mut self, i: usize, x: T)
        requires { i < length self.old }
        ensures { self.new ≡ slice_set self.old i x }
    {
        self.items[i] = x;
    }

    /// Replaces the element `i`, and answers the old one.
    pub fn replace(&mut self, i: usize, x: T) -> T
        requires { i < length self.old }
        ensures list { self.new ≡ slice_set self.old i x }
        ensures result { slice_get self.old i ≡ Some result }
    {
        std::mem::replace(&mut self.items[i], x)
    }

    /// Takes the element `i` out.
    pub fn remove(&mut self, i: usize)
        requires { i < length self.old }
        ensures { self.new ≡ remove self.old i }
    {
        let _gone = self.items.remove(i);
    }
}
