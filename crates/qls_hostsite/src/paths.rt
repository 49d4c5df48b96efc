//! The folders of a store, and the texts of paths, which are made in a buffer that is kept.
ghost use Rattle.std.specs.Prelude.{◌≡◌, ◌++◌, codes, IfOk};
ghost use Rattle.std.specs.String.{string_bytes};
ghost use Rattle.qls_hostsite.specs.Places.{folder_of, holder_of, folder_path, file_path};

use crate::names::{UNFINISHED, WHOLE};
use qls_site::Place;
use std::alloc::{AllocError, Global};
use std::fmt::Write as _;

/// How many bytes a path of the store has at most behind the text of its folder.
const LONGEST_TAIL: usize = 64;

/// A folder of the store, or the one that holds the store's own.
#[derive(Clone, Copy, Debug, PartialEq, Eq)]
pub enum Folder {
    Above,
    Store,
    InUse,
    Empty,
    Part(u16),
    Pool(u16, u32),
}

impl Folder {
    /// The folder in which files of this place lie.
    pub fn of(place: Place) -> Folder
        ensures { result ≡ folder_of place }
    {
        match place {
            Place::InUse => Folder::InUse,
            Place::Empty { part, kib } => Folder::Pool(part, kib),
        }
    }

    /// The folder that holds this one.
    pub fn holder(self) -> Folder
        ensures { result ≡ holder_of self }
    {
        match self {
            Folder::Above | Folder::Store => Folder::Above,
            Folder::InUse | Folder::Empty => Folder::Store,
            Folder::Part(_) => Folder::Empty,
            Folder::Pool(part, _) => Folder::Part(part),
        }
    }
}

/// A buffer for one path at a time. Its room is taken as it is made, so no path wants memory later.
#[derive(Drop)]
pub struct PathText {
    store: String,
    text: String,
}

impl PathText {
    /// For a store in the folder of this text.
    pub fn new(alloc: Global, store: &str) -> Result<PathText, AllocError>
        ensures store { IfOk result (λ path. string_bytes path.store ≡ store.now) }
    {
        let mut text = String::from_str(alloc, store)?;
        text.reserve(LONGEST_TAIL)?;
        let store = String::from_str(alloc, store)?;
        Ok(PathText { store, text })
    }

    /// The text of the store's folder.
    pub fn store(&self) -> &str
        ensures same { result.now ≡ string_bytes self.now.store }
    {
        self.store.as_str()
    }

    /// The path that was made last.
    pub fn as_str(&self) -> &str
        ensures same { result.now ≡ string_bytes self.now.text }
    {
        self.text.as_str()
    }

    /// Makes a folder's path.
    pub fn folder(&mut self, folder: Folder) -> Result<(), AllocError>
        ensures path { IfOk result (λ _. string_bytes self.new.text ≡ folder_path (string_bytes self.old.store) folder) }
        ensures store { self.new.store ≡ self.old.store }
    {
        let store = self.store.as_str();
        self.text.clear();
        match folder {
            Folder::Above => write!(self.text, "{store}/.."),
            Folder::Store => write!(self.text, "{store}"),
            Folder::InUse => write!(self.text, "{store}/inuse"),
            Folder::Empty => write!(self.text, "{store}/empty"),
            Folder::Part(part) => write!(self.text, "{store}/empty/{part}"),
            Folder::Pool(part, kib) => write!(self.text, "{store}/empty/{part}/{kib}"),
        }
    }

    /// Makes the path of the folder that holds this one, which stands above the store.
    pub fn holder_of(&mut self, path: &str) -> Result<(), AllocError>
        ensures path { IfOk result (λ _. string_bytes self.new.text ≡ path.now ++ codes "/..") }
        ensures store { self.new.store ≡ self.old.store }
    {
        self.text.clear();
        write!(self.text, "{path}/..")
    }

    /// Makes the path of a file of the store.
    #[tactic(auto, using(crate::proofs::Digits::zeros_lead))]
    pub fn file(&mut self, place: Place, id: u64) -> Result<(), AllocError>
        ensures path { IfOk result (λ _. string_bytes self.new.text ≡ file_path (string_bytes self.old.store) place id (codes ".qls")) }
        ensures store { self.new.store ≡ self.old.store }
    {
        self.folder(Folder::of(place))?;
        write!(self.text, "/{id:019}{WHOLE}")
    }

    /// Makes the path of a file that is being made.
    #[tactic(auto, using(crate::proofs::Digits::zeros_lead))]
    pub fn unfinished(&mut self, place: Place, id: u64) -> Result<(), AllocError>
        ensures path { IfOk result (λ _. string_bytes self.new.text ≡ file_path (string_bytes self.old.store) place id (codes ".new")) }
        ensures store { self.new.store ≡ self.old.store }
    {
        self.folder(Folder::of(place))?;
        write!(self.text, "/{id:019}{UNFINISHED}")
    }
}
