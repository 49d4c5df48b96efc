// A site in memory.
ghost use Rattle.std.specs.Prelude.{◌≡◌, ◌≤◌, length, OnOk, IfOk};
ghost use Rattle.qls_site.specs.Disk.{full};
ghost use Rattle.qls_memsite.specs.Seen.{IdsRise, IdsRise-prop, IdsDiffer, by_id};
ghost use Rattle.qls_memsite.specs.Log.{begun, content_after};
ghost use Rattle.qls_memsite.specs.Whole.{AreWhole, AreWhole-prop};

use crate::call::Call;
use crate::plan::{CallKind, Failure, Plan};
use crate::scene::Scene;
use crate::{images, past};
use qls_model::{Bytes, NoMemory, Seq};
use qls_site::ImageFile;
use std::alloc::{AllocError, Global};

/// A site in memory, which tells all its moments.
///
/// It keeps the files that it began with, a log of its calls, and the files as a reader sees them now, by rising id.
#[derive(Drop)]
pub struct MemSite {
    pub(crate) alloc: Global,
    pub(crate) start: Seq<ImageFile>,
    pub(crate) calls: Vec<Call>,
    pub(crate) files: Vec<ImageFile>,
    pub(crate) answered: Vec<u8>,
    pub(crate) plan: Plan,
    pub(crate) faults: u64,
    pub(crate) syncs: u64,
    pub(crate) reads: u64,
    ghost seen: { full (content_after calls.items (begun start)).now.disk ≡ files.items },
    ghost answers: { (content_after calls.items (begun start)).now.answered ≡ answered.items },
    ghost order: { IdsRise files.items } by { IdsRise-prop files.items },
    ghost whole: { AreWhole (content_after calls.items (begun start)) } by { AreWhole-prop (content_after calls.items (begun start)) },
    ghost few_syncs: { syncs ≤ length calls.items },
    ghost few_reads: { reads ≤ length calls.items },
}

// A copy of the files, with bodies of its own.
fn copy_files(alloc: Global, files: &[ImageFile]) -> Result<Vec<ImageFile>, NoMemory>
    ensures { IfOk result (λ copied. copied.items ≡ files.now) }
{
    let mut copied = Seq::new(alloc);
    for file in files {
        copied.push(ImageFile {
            id: file.id,
            place: file.place,
            bytes: file.bytes.copy()?,
        })?;
    }
    Ok(copied.into_vec())
}

// Sorts the files by id.
fn sort(files: &mut Vec<ImageFile>) -> Result<(), NoMemory>
    requires { IdsDiffer files.old.items }
    ensures { OnOk result (files.new.items ≡ by_id files.old.items) }
{
    files.sort_by_key(|file| file.id)?;
    Ok(())
}

impl MemSite {
    ghost use Rattle.std.specs.Prelude.{◌<◌, [], Some, slice_get, IfOk, IfErr, IfSome};
    ghost use Rattle.std.specs.Option.{option_map};
    ghost use Rattle.qls_site.specs.Disk.{IsImage};
    ghost use Rattle.qls_site.specs.Chosen.{chosen_image};
    ghost use Rattle.qls_memsite.specs.Failures.{with_failure, with_stop};
    ghost use Rattle.qls_memsite.specs.Scenes.{moment_of};
    ghost use Rattle.qls_memsite.specs.Whole.{IsWhole};
    ghost use Rattle.qls_memsite.specs.Memory.{content_of, set_to_fail, faults_of, syncs_of, reads_of, moment_at, OnlySets, BeginsOn};

    /// An empty site on which no call is set to fail. Every count is 0.
    pub fn new(alloc: Global) -> MemSite
        ensures begins { BeginsOn [] result }
    {
        MemSite {
            alloc,
            start: Seq::new(alloc),
            calls: Vec::new(alloc),
            files: Vec::new(alloc),
            answered: Vec::new(alloc),
            plan: Plan {
                failures: Vec::new(alloc),
                stop: None,
            },
            faults: 0,
            syncs: 0,
            reads: 0,
        }
    }

    /// A site that begins on these files, sorted by id, with nothing pending. No two have the same id. No call is set
    /// to fail, and every count is 0.
    #[tactic(auto, using(crate::proofs::Kept::kept_begun, crate::proofs::Sorting::rise_by_id, crate::proofs::Whole::whole_begun))]
    pub fn from_image(alloc: Global, files: Seq<ImageFile>) -> Result<MemSite, NoMemory>
        requires { IdsDiffer files }
        ensures begins { IfOk result (BeginsOn (by_id files)) }
    {
        let mut start = files.into_vec();
        sort(&mut start)?;
        let files = copy_files(alloc, &start)?;
        Ok(MemSite {
            alloc,
            start: Seq::from_vec(start),
            calls: Vec::new(alloc),
            files,
            answered: Vec::new(alloc),
            plan: Plan {
                failures: Vec::new(alloc),
                stop: None,
            },
            faults: 0,
            syncs: 0,
            reads: 0,
        })
    }

    /// Sets the `n`-th call of that kind from now to fail, counted from 1, beside those that are set already; 0 sets
    /// none. A call that wants memory isn't counted.
    pub fn fail_call(&mut self, kind: CallKind, n: u64) -> Result<(), NoMemory>
        ensures set { IfOk result (λ _. set_to_fail self.new ≡ with_failure kind n (set_to_fail self.old)) }
        ensures refused { IfErr result (λ _. set_to_fail self.new ≡ set_to_fail self.old) }
        ensures rest { OnlySets self.old self.new }
    {
        match self.plan.failures.push(Failure { kind, left: n }) {
            Ok(()) => Ok(()),
            Err(_refused) => Err(NoMemory),
        }
    }

    /// Sets the `k`-th call from now, counted from 1, and all later ones to fail, beside the failures that are set
    /// already; 0 sets none. A call that wants memory isn't counted.
    pub fn stop_at(&mut self, k: u64)
        ensures set { set_to_fail self.new ≡ with_stop k (set_to_fail self.old) }
        ensures rest { OnlySets self.old self.new }
    {
        self.plan.stop_at(k);
    }

    /// How many moments there are so far: one at the start, then one after each call that didn't want memory, and two
    /// after a create, relocate or answer that failed.
    pub fn moment_count(&self) -> usize
        ensures counted { result ≡ length (content_of self.now).moments }
    {
        past::count(self.start.as_slice(), &self.calls)
    }

    /// How often `sync` was called, failed calls included.
    pub fn sync_count(&self) -> u64
        ensures counted { result ≡ syncs_of self.now }
    {
        self.syncs
    }

    // What was there at a moment.
    #[tactic(auto, using(crate::proofs::Whole::whole_moment))]
    fn scene(&self, moment: usize) -> Result<Scene, AllocError>
        requires { moment < length (content_of self.now).moments }
        ensures moment { IfOk result (λ scene. moment_at moment self.now ≡ Some (moment_of scene)) }
        ensures whole { IfOk result (λ scene. IsWhole (moment_of scene).disk) }
    {
        past::scene_at(self.alloc, self.start.as_slice(), &self.calls, moment)
    }

    /// What a crash leaves at a moment, counted from 0: the n-th sector of the pending writes is there where the n-th
    /// choice is true. They are counted by rising file id, then from the oldest write on, then by place; a missing
    /// choice is false.
    pub fn image(&self, moment: usize, choice: &Seq<bool>) -> Result<Seq<ImageFile>, NoMemory>
        requires { moment < length (content_of self.now).moments }
        ensures image { IfOk result (λ files. Some files ≡ option_map (λ m. chosen_image choice.now m.disk) (moment_at moment self.now)) }
        ensures left { IfOk result (λ files. IfSome (moment_at moment self.now) (λ m. IsImage m.disk files)) }
    {
        let scene = self.scene(moment)?;
        let files = images::image(self.alloc, scene.files, choice.as_slice())?;
        Ok(files)
    }

    /// The bytes answered so far.
    pub fn answered(&self) -> &[u8]
        ensures answered { result.now ≡ (content_of self.now).now.answered }
    {
        &self.answered
    }

    /// The bytes that were answered at a moment, counted from 0.
    pub fn answered_at(&self, moment: usize) -> Result<Bytes, NoMemory>
        requires { moment < length (content_of self.now).moments }
        ensures answered { IfOk result (λ bytes. Some bytes ≡ option_map (λ m. m.answered) (moment_at moment self.now)) }
    {
        let scene = self.scene(moment)?;
        Ok(Bytes::from_vec(scene.answered))
    }
}
