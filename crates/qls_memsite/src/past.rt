// The moments of a log: how many there are, and what was there at each.
ghost use Rattle.std.specs.Prelude.{◌≡◌, ◌<◌, ◌^◌, length, slice_get, Some, IfOk, if◌then◌else◌};
ghost use Rattle.qls_site.specs.Disk.{at_rest};
ghost use Rattle.qls_memsite.specs.Log.{is_in_doubt, content_after, begun};
ghost use Rattle.qls_memsite.specs.Scenes.{disk_of, moment_of};

use crate::call::Call;
use crate::scene::{Scene, SceneFile, redo};
use qls_site::ImageFile;
use std::alloc::{AllocError, Global};

fn is_in_doubt(call: &Call) -> bool
    ensures { result ≡ is_in_doubt call.now }
{
    match call {
        Call::Look | Call::Write { .. } | Call::Sync { .. } => false,
        Call::Create { failed, .. } | Call::Relocate { failed, .. } | Call::Answer { failed, .. } =>
            *failed,
    }
}

fn moments_of(call: &Call) -> usize
    ensures { result ≡ (if is_in_doubt call.now then 2 else 1) }
{
    if is_in_doubt(call) { 2 } else { 1 }
}

#[tactic(auto, using(crate::proofs::Moments::count_next))]
pub fn count(start: &[ImageFile], calls: &[Call]) -> usize
    requires { length calls.now < 2 ^ 62 }
    ensures { result ≡ length (content_after calls.now (begun start.now)).moments }
{
    let _first = start.len();
    let mut count = 1usize;
    for call in calls {
        count += moments_of(call);
    }
    count
}

fn at_rest(alloc: Global, start: &[ImageFile]) -> Result<Vec<SceneFile>, AllocError>
    ensures { IfOk result (λ files. disk_of files.items ≡ at_rest start.now) }
{
    let mut files = Vec::new(alloc);
    for file in start {
        files.push(SceneFile {
            id: file.id,
            place: file.place,
            stable: file.bytes.as_slice().to_vec(alloc)?,
            pending: Vec::new(alloc),
        })?;
    }
    Ok(files)
}

/// The scene at a moment, from the files that were there at first and the calls.
pub fn scene_at(
    alloc: Global,
    start: &[ImageFile],
    calls: &[Call],
    moment: usize,
) -> Result<Scene, AllocError>
    requires { moment < length (content_after calls.now (begun start.now)).moments }
    ensures { IfOk result (λ s. slice_get (content_after calls.now (begun start.now)).moments moment ≡ Some (moment_of s)) }
{
    let mut scene = Scene {
        files: at_rest(alloc, start)?,
        answered: Vec::new(alloc),
    };
    let mut left = moment;
    for call in calls {
        if left == 0 {
            return Ok(scene);
        }
        if is_in_doubt(call) {
            if left == 1 {
                return Ok(scene);
            }
            if left == 2 {
                redo(alloc, &mut scene, call)?;
                return Ok(scene);
            }
            left -= 2;
            continue;
        }
        redo(alloc, &mut scene, call)?;
        left -= 1;
    }
    Ok(scene)
}
