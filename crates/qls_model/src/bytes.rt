//! Bytes and sequences, which contracts see as lists.
use std::alloc::{AllocError, AllocFailed, Global};
use std::marker::Model;

/// Want of memory: a growth was refused. It is the one answer that no clause ties to a cause.
#[derive(Clone, Copy, Debug, PartialEq, Eq)]
pub struct NoMemory;

impl From<AllocError> for NoMemory {
    fn from(_error: AllocError) -> NoMemory {
        NoMemory
    }
}

/// What could not be stored is dropped.
impl<T: Drop> From<AllocFailed<T>> for NoMemory {
    fn from(_refused: AllocFailed<T>) -> NoMemory {
        NoMemory
    }
}

/// A list of bytes.
#[derive(Drop)]
pub struct Bytes {
    items: Vec<u8>,
}

impl Model for Bytes {
    ghost use Rattle.std.specs.Prelude.{List, ℕ};

    ghost Value = { List ℕ };

    ghost view = { λ a. a.items.items };
}

impl Bytes {
    ghost use Rattle.std.specs.Prelude.{◌≡◌, ◌++◌, IfOk, IfErr};

    /// A copy of these bytes.
    pub fn new(alloc: Global, from: &[u8]) -> Result<Bytes, NoMemory>
        ensures copied { IfOk result (λ bytes. bytes ≡ from.now) }
    {
        let mut items = Vec::new(alloc);
        items.extend_from_slice(from)?;
        Ok(Bytes { items })
    }

    /// The bytes that a vector holds, without a copy.
    pub fn from_vec(items: Vec<u8>) -> Bytes
        ensures same { result ≡ items.items }
    {
        Bytes { items }
    }

    /// The vector that holds the bytes, without a copy.
    pub fn into_vec(self) -> Vec<u8>
        ensures same { result.items ≡ self }
    {
        self.items
    }

    /// Puts these bytes at the end. Where memory is wanting nothing changes.
    pub fn add(&mut self, from: &[u8]) -> Result<(), NoMemory>
        ensures added { IfOk result (λ _. self.new ≡ self.old ++ from.now) }
        ensures refused { IfErr result (λ _. self.new ≡ self.old) }
    {
        self.items.extend_from_slice(from)?;
        Ok(())
    }

    /// A list of the same bytes.
    pub fn copy(&self) -> Result<Bytes, NoMemory>
        ensures copied { IfOk result (λ bytes. bytes ≡ self.now) }
    {
        let mut items = Vec::new(*self.items.allocator());
        items.extend_from_slice(self.items.as_slice())?;
        Ok(Bytes { items })
    }

    /// The bytes.
    pub fn as_slice(&self) -> &[u8]
        ensures same { result.now ≡ self.now }
    {
        self.items.as_slice()
    }
}

/// A list.
#[derive(Drop)]
pub struct Seq<T> {
    items: Vec<T>,
}

impl<T> Model for Seq<T> {
    ghost use Rattle.std.specs.Prelude.{List};

    ghost Value = { List T };

    ghost view = { λ a. a.items.items };
}

impl<T> Seq<T> {
    ghost use Rattle.std.specs.Prelude.{◌≡◌, ◌↔◌, ◌<◌, ◌++◌, [], length, reverse, slice_get, option_copied, option_to_list, IsSome};
    ghost use Rattle.std.specs.Borrow.{sem};
    ghost use Rattle.qls_model.specs.Lends.{lends_vec};

    /// The empty list.
    pub fn new(alloc: Global) -> Seq<T>
        ensures empty { result ≡ [] }
    {
        Seq {
            items: Vec::new(alloc),
        }
    }

    /// The items of a vector, without a copy.
    pub fn from_vec(items: Vec<T>) -> Seq<T>
        ensures same { result ≡ items.items }
    {
        Seq { items }
    }

    /// The vector that holds the items, without a copy.
    pub fn into_vec(self) -> Vec<T>
        ensures same { result.items ≡ self }
    {
        self.items
    }

    /// How many items there are.
    pub fn len(&self) -> usize
        ensures counted { result ≡ length self.now }
    {
        self.items.len()
    }

    /// The items.
    pub fn as_slice(&self) -> &[T]
        ensures same { result.now ≡ self.now }
    {
        self.items.as_slice()
    }

    /// The vector that holds the items, to be changed in place.
    pub(crate) fn as_mut_vec(&mut self) -> &mut Vec<T>
        ensures* writes_back { sem 𝓛 (lends_vec T.row self.entry result) }
        ensures same { result.now.items ≡ self.old }
    {
        &mut self.items
    }

    /// The item at a place, counted from 0; None exactly where there is none.
    pub fn get(&self, at: usize) -> Option<&T>
        ensures there { IsSome result ↔ (at < length self.now) }
        ensures item { option_copied result ≡ slice_get self.now at }
    {
        self.items.get(at)
    }

    /// Takes the last item out; None exactly where the list is empty.
    pub fn pop(&mut self) -> Option<T>
        ensures there { IsSome result ↔ (0 < length self.old) }
        ensures last { self.old ≡ self.new ++ option_to_list result }
    {
        self.items.pop()
    }

    /// Turns the order round.
    pub fn reverse(&mut self)
        ensures turned { self.new ≡ reverse self.old }
    {
        self.items.reverse();
    }
}

impl<T: Drop> Seq<T> {
    ghost use Rattle.std.specs.Prelude.{◌≡◌, ◌++◌, ◌∷◌, [], IfOk, IfErr};
    /// Puts the item at the end. Where memory is wanting it is dropped, and nothing changes.
    pub fn push(&mut self, item: T) -> Result<(), NoMemory>
        ensures pushed { IfOk result (λ _. self.new ≡ self.old ++ item ∷ []) }
        ensures refused { IfErr result (λ _. self.new ≡ self.old) }
    {
        self.items.push(item)?;
        Ok(())
    }
}
