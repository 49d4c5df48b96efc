// The empty files in the order in which they are searched.
ghost use Rattle.std.specs.Prelude.{◌≡◌, ◌||◌, ◌&&◌, not, true, false, ℕ, IfOk, IfErr};
ghost use Rattle.std.specs.Set.{remove_key};
ghost use Rattle.qls_pool.specs.Pools.{is_in, is_file, has, least_id};

use qls_model::{NoMemory, PoolId};
use std::collections::BTreeSet;

/// An empty file: the partition and the KiB of data of its pool, and its id. Files go by pool, and in a pool by id.
#[derive(Clone, Copy, Debug, PartialEq, Eq, PartialOrd, Ord)]
pub struct PooledFile {
    pub part: u16,
    pub kib: u32,
    pub id: u64,
}

/// The least id in a pool; None exactly where it is empty.
pub(crate) fn least(files: &BTreeSet<PooledFile>, home: PoolId) -> Option<u64>
    ensures exact { result ≡ least_id home files.now.keys }
{
    let front = PooledFile {
        part: home.part,
        kib: home.kib,
        id: 0,
    };
    let found = files.range(front..).next()?;
    if is_in(home, found) {
        Some(found.id)
    } else {
        None
    }
}

/// Whether the file is in this pool.
fn is_in(home: PoolId, file: &PooledFile) -> bool
    ensures exact { result ≡ is_in home.part home.kib file.now }
{
    home.part == file.part && home.kib == file.kib
}

/// Puts a file among the others; answers whether it is new there. Where memory is wanting nothing changes.
pub(crate) fn add(files: &mut BTreeSet<PooledFile>, file: PooledFile) -> Result<bool, NoMemory>
    ensures added { IfOk result (λ _. (part kib id : ℕ) → has part kib id files.new.keys ≡ (has part kib id files.old.keys || is_file part kib id file)) }
    ensures new { IfOk result (λ new. new ≡ not (has file.part file.kib file.id files.old.keys)) }
    ensures refused { IfErr result (λ _. files.new.keys ≡ files.old.keys) }
    ensures there { IfOk result (λ new. new ≡ false → files.new.keys ≡ files.old.keys) }
    ensures undone { IfOk result (λ new. new ≡ true → remove_key (is_file file.part file.kib file.id) files.new.keys ≡ files.old.keys) }
{
    Ok(files.insert(file)?)
}

/// Takes a file out.
pub(crate) fn remove(files: &mut BTreeSet<PooledFile>, file: PooledFile)
    ensures keys { files.new.keys ≡ remove_key (is_file file.part file.kib file.id) files.old.keys }
    ensures removed { (part kib id : ℕ) → has part kib id files.new.keys ≡ (has part kib id files.old.keys && not (is_file part kib id file)) }
{
    let _ = files.remove(&file);
}
