// The files as a reader sees them, by rising id.
ghost use Rattle.std.specs.Prelude.{◌≡◌, ℕ, ◌+◌, ◌≤◌, ◌<◌, length, take, drop, map, IfSome, IfNone, None, OnOk, OnErr, IfOk, IsOk};
ghost use Rattle.std.specs.Vec.{vec_len, vec_capacity};
ghost use Rattle.qls_memsite.specs.Seen.{IdsRise, StandsAt, HasBytes, seen_of, bytes_of, before, change_seen, with_bytes, at_place, with_seen, zeros, listed_seen};

use qls_model::{Bytes, NoMemory, Seq};
use qls_site::{FileAt, ImageFile, Place};
use std::alloc::{AllocError, Global};
use std::mem;

// How many of the first files have a lesser id.
#[tactic(auto, using(crate::proofs::Places::below, crate::proofs::Places::behind, crate::proofs::Seen::before_within))]
fn place_of(files: &[ImageFile], id: u64) -> usize
    requires { IdsRise files.now }
    ensures { result ≡ before id files.now }
{
    let mut low = 0;
    let mut high = files.len();
    while low < high {
        let middle = low + (high - low) / 2;
        if files[middle].id < id {
            low = middle + 1;
        } else {
            high = middle;
        }
    }
    low
}

// Where the file of that id stands.
#[tactic(auto, using(crate::proofs::Places::stands, crate::proofs::Places::none_at_end, crate::proofs::Places::none_at, crate::proofs::Seen::before_within))]
fn find(files: &[ImageFile], id: u64) -> Option<usize>
    requires { IdsRise files.now }
    ensures there { IfSome result (StandsAt files.now id) }
    ensures missing { IfNone result (seen_of id files.now ≡ None) }
{
    let place = place_of(files, id);
    if place >= files.len() {
        return None;
    }
    if files[place].id != id {
        return None;
    }
    Some(place)
}

pub fn read_bytes(files: &[ImageFile], id: u64, at: u64, into: &mut [u8])
    requires order { IdsRise files.now }
    requires range { HasBytes at (length into.old) (seen_of id files.now) }
    ensures { into.new ≡ take (length into.old) (drop at (bytes_of (seen_of id files.now))) }
{
    let Some(place) = find(files, id) else {
        return;
    };
    let bytes = files[place].bytes.as_slice();
    let start = at as usize;
    into.copy_from_slice(&bytes[start..start + into.len()]);
}

fn overwrite(alloc: Global, file: &mut ImageFile, at: u64, bytes: &[u8])
    requires { at + length bytes.now ≤ length file.old.bytes }
    ensures { file.new ≡ with_bytes at bytes.now file.old }
{
    let held = mem::replace(&mut file.bytes, Bytes::from_vec(Vec::new(alloc)));
    let mut held = held.into_vec();
    let start = at as usize;
    held[start..start + bytes.len()].copy_from_slice(bytes);
    file.bytes = Bytes::from_vec(held);
}

#[tactic(auto, using(crate::proofs::Places::changed_there, crate::proofs::Places::within))]
pub fn write_bytes(alloc: Global, files: &mut Vec<ImageFile>, id: u64, at: u64, bytes: &[u8])
    requires order { IdsRise files.old.items }
    requires range { HasBytes at (length bytes.now) (seen_of id files.old.items) }
    ensures { files.new.items ≡ change_seen id (with_bytes at bytes.now) files.old.items }
{
    let Some(place) = find(files, id) else {
        return;
    };
    overwrite(alloc, &mut files[place], at, bytes);
}

#[tactic(auto, using(crate::proofs::Places::changed_there, crate::proofs::Places::within, crate::proofs::Places::change_none))]
pub fn relocate(files: &mut Vec<ImageFile>, id: u64, to: Place)
    requires { IdsRise files.old.items }
    ensures { files.new.items ≡ change_seen id (at_place to) files.old.items }
{
    let Some(place) = find(files, id) else {
        return;
    };
    files[place].place = to;
}

pub fn file_of_zeros(alloc: Global, id: u64, part: u16, kib: u32) -> Result<ImageFile, AllocError>
    ensures { IfOk result (λ f. f ≡ zeros id part kib) }
{
    let size = 4096 + 1024 * kib as usize;
    let bytes = vec![in alloc; 0u8; size]?;
    Ok(ImageFile {
        id,
        place: Place::Empty { part, kib },
        bytes: Bytes::from_vec(bytes),
    })
}

#[tactic(auto, using(crate::proofs::Seen::with_seen_at, crate::proofs::Seen::before_within))]
pub fn add_file(files: &mut Vec<ImageFile>, file: ImageFile) -> Result<(), AllocError>
    requires order { IdsRise files.old.items }
    requires new { seen_of file.id files.old.items ≡ None }
    ensures added { OnOk result (files.new.items ≡ with_seen file files.old.items) }
    ensures refused { OnErr result (files.new.items ≡ files.old.items) }
    ensures room { vec_len files.old < vec_capacity files.old → IsOk result }
{
    let place = place_of(files, file.id);
    files.insert(place, file)?;
    Ok(())
}

pub fn list(alloc: Global, files: &[ImageFile]) -> Result<Seq<FileAt>, NoMemory>
    ensures { IfOk result (λ listed. listed ≡ map listed_seen files.now) }
{
    let mut listed = Seq::new(alloc);
    for file in files {
        listed.push(FileAt {
            id: file.id,
            place: file.place,
            size: file.bytes.as_slice().len() as u64,
        })?;
    }
    Ok(listed)
}
