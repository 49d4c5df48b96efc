// What a site was at an earlier moment, made again from the log of its calls.
use crate::call::Call;
use qls_model::Bytes;
use qls_site::{ImageFile, Place};
use std::alloc::{AllocError, Global};

/// A write that is pending.
#[derive(Drop)]
pub struct PendingWrite {
    pub at: u64,
    pub bytes: Bytes,
}

/// A file with its stable bytes, and the writes since, oldest first.
#[derive(Drop)]
pub struct SceneFile {
    pub id: u64,
    pub place: Place,
    pub stable: Vec<u8>,
    pub pending: Vec<PendingWrite>,
}

/// The disk and the answered bytes of a moment.
#[derive(Drop)]
pub struct Scene {
    pub files: Vec<SceneFile>,
    pub answered: Vec<u8>,
}

ghost use Rattle.std.specs.Prelude.{◌≡◌, ◌+◌, ◌<◌, ◌++◌, take, drop, length, map, slice_get, Some, OnOk, IfOk, [], ◌∷◌};
ghost use Rattle.qls_site.specs.Disk.{all_written, changed, create_at, at_rest};
ghost use Rattle.qls_site.specs.Content.{Content};
ghost use Rattle.qls_memsite.specs.Log.{act_of, is_in_doubt, content_after, begun};
ghost use Rattle.qls_memsite.specs.Scenes.{write_of, state_of, disk_of, moment_of, changed_by, place_in};

/// Puts `new` in place of the `count` bytes at offset `at`; what lies past the end counts as no bytes.
pub fn replace(
    alloc: Global,
    file: &mut Vec<u8>,
    at: u64,
    count: usize,
    new: &[u8],
) -> Result<(), AllocError>
    ensures { OnOk result (file.new.items ≡ take at file.old.items ++ new.now ++ drop (at + count) file.old.items) }
{
    let start = file.len().min(at as usize);
    let end = start.saturating_add(count).min(file.len());
    if end - start == new.len() {
        file[start..end].copy_from_slice(new);
        return Ok(());
    }
    let rest = file[end..].to_vec(alloc)?;
    file.truncate(start);
    file.extend_from_slice(new)?;
    file.extend_from_slice(&rest)?;
    Ok(())
}

fn settle(alloc: Global, file: &mut SceneFile) -> Result<(), AllocError>
    ensures { OnOk result (state_of file.new ≡ record (state_of file.old) { stable = all_written (map write_of file.old.pending.items) file.old.stable.items; pending = [] }) }
{
    apply(alloc, &mut file.stable, &file.pending)?;
    file.pending.clear();
    Ok(())
}

fn apply(alloc: Global, bytes: &mut Vec<u8>, pending: &[PendingWrite]) -> Result<(), AllocError>
    ensures { OnOk result (bytes.new.items ≡ all_written (map write_of pending.now) bytes.old.items) }
{
    for write in pending {
        let new = write.bytes.as_slice();
        replace(alloc, bytes, write.at, new.len(), new)?;
    }
    Ok(())
}

fn write(
    alloc: Global,
    file: &mut SceneFile,
    id: u64,
    at: u64,
    bytes: &Bytes,
) -> Result<(), AllocError>
    ensures { OnOk result (state_of file.new ≡ changed id (λ f. record f { pending = f.pending ++ (record { at = at; bytes = bytes.now }) ∷ [] }) (state_of file.old)) }
{
    if file.id != id {
        return Ok(());
    }
    let bytes = Bytes::from_vec(bytes.as_slice().to_vec(alloc)?);
    file.pending.push(PendingWrite { at, bytes })?;
    Ok(())
}

fn sync(alloc: Global, file: &mut SceneFile, id: u64) -> Result<(), AllocError>
    ensures { OnOk result (state_of file.new ≡ changed id (λ f. record f { stable = all_written f.pending f.stable; pending = [] }) (state_of file.old)) }
{
    if file.id != id {
        return Ok(());
    }
    settle(alloc, file)
}

fn relocate(file: &mut SceneFile, id: u64, to: Place)
    ensures { state_of file.new ≡ changed id (λ f. record f { place = to }) (state_of file.old) }
{
    if file.id == id {
        file.place = to;
    }
}

// Does again what the call did to this file.
fn change_file(alloc: Global, file: &mut SceneFile, call: &Call) -> Result<(), AllocError>
    ensures { OnOk result (state_of file.new ≡ changed_by call.now (state_of file.old)) }
{
    match call {
        Call::Look | Call::Create { .. } | Call::Answer { .. } => Ok(()),
        Call::Write { id, at, bytes } => write(alloc, file, *id, *at, bytes),
        Call::Sync { id } => sync(alloc, file, *id),
        Call::Relocate { id, to, .. } => {
            relocate(file, *id, *to);
            Ok(())
        }
    }
}

#[tactic(auto, using(crate::proofs::Scenes::next_changed))]
fn change_files(alloc: Global, files: &mut [SceneFile], call: &Call) -> Result<(), AllocError>
    ensures { OnOk result (disk_of files.new ≡ map (changed_by call.now) (disk_of files.old)) }
{
    for file in files.iter_mut() {
        change_file(alloc, file, call)?;
    }
    Ok(())
}

// How many of the files stand before a new one of that id.
fn place_of(files: &[SceneFile], id: u64) -> usize
    ensures { result ≡ place_in id (disk_of files.now) }
{
    for (place, file) in files.iter().enumerate() {
        if id < file.id {
            return place;
        }
    }
    files.len()
}

#[tactic(auto, using(crate::proofs::Scenes::with_file_at, crate::proofs::Scenes::place_within, crate::proofs::Scenes::disk_insert))]
fn create(
    alloc: Global,
    files: &mut Vec<SceneFile>,
    id: u64,
    part: u16,
    kib: u32,
) -> Result<(), AllocError>
    ensures { OnOk result (disk_of files.new.items ≡ create_at id part kib (disk_of files.old.items)) }
{
    let size = 4096 + 1024 * kib as usize;
    let stable = vec![in alloc; 0u8; size]?;
    let place = place_of(files, id);
    files.insert(
        place,
        SceneFile {
            id,
            place: Place::Empty { part, kib },
            stable,
            pending: Vec::new(alloc),
        },
    )?;
    Ok(())
}

// Does the call again, as if it had happened.
pub fn redo(alloc: Global, scene: &mut Scene, call: &Call) -> Result<(), AllocError>
    ensures { OnOk result (moment_of scene.new ≡ act_of call.now (moment_of scene.old)) }
{
    match call {
        Call::Look => Ok(()),
        Call::Create { id, part, kib, .. } => {
            create(alloc, &mut scene.files, *id, *part, *kib)?;
            Ok(())
        }
        Call::Answer { bytes, .. } => {
            scene.answered.extend_from_slice(bytes.as_slice())?;
            Ok(())
        }
        Call::Write { .. } | Call::Sync { .. } | Call::Relocate { .. } => {
            change_files(alloc, &mut scene.files, call)?;
            Ok(())
        }
    }
}
