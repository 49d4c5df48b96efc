// What a crash leaves of a scene, by choices.
ghost use Rattle.std.specs.Prelude.{◌≡◌, ◌/◌, length, take, drop, map, OnOk, IfOk, if◌then◌else◌};
ghost use Rattle.qls_site.specs.Chosen.{first_choice, sectors, mixed, chosen, all_chosen, all_sectors, chosen_image};
ghost use Rattle.qls_memsite.specs.Scenes.{write_of, state_of, disk_of};

use crate::scene::{PendingWrite, SceneFile, replace};
use qls_model::{Bytes, Seq};
use qls_site::ImageFile;
use std::alloc::{AllocError, Global};

fn first_part<T>(items: &[T], n: usize) -> (&[T], &[T])
    ensures part { result.0.now ≡ take n items.now }
    ensures others { result.1.now ≡ drop n items.now }
{
    if n <= items.len() {
        items.split_at(n)
    } else {
        items.split_at(items.len())
    }
}

// The new sector where the first choice is for it, else the old one.
fn pick<'a>(choice: &[bool], new: &'a [u8], old: &'a [u8]) -> &'a [u8]
    ensures { result.now ≡ (if first_choice choice.now then new.now else old.now) }
{
    if choice.len() > 0 && choice[0] {
        return new;
    }
    old
}

// Sector by sector, the new bytes where that is chosen, else the old ones.
fn mix(alloc: Global, choice: &[bool], new: &[u8], old: &[u8]) -> Result<Vec<u8>, AllocError>
    ensures { IfOk result (λ v. v.items ≡ mixed (length new.now / 512) choice.now new.now old.now) }
{
    let mut out = Vec::new(alloc);
    let mut choices = choice;
    let mut news = new;
    let mut olds = old;
    let mut left = new.len() / 512;
    while left > 0 {
        let (new_sector, more_news) = first_part(news, 512);
        let (old_sector, more_olds) = first_part(olds, 512);
        out.extend_from_slice(pick(choices, new_sector, old_sector))?;
        choices = first_part(choices, 1).1;
        news = more_news;
        olds = more_olds;
        left -= 1;
    }
    Ok(out)
}

// Applies the chosen sectors of the write.
fn choose(
    alloc: Global,
    choice: &[bool],
    write: &PendingWrite,
    file: &mut Vec<u8>,
) -> Result<(), AllocError>
    ensures { OnOk result (file.new.items ≡ chosen choice.now (write_of write.now) file.old.items) }
{
    let new = write.bytes.as_slice();
    let start = file.len().min(write.at as usize);
    let mixed = mix(alloc, choice, new, &file[start..])?;
    replace(alloc, file, write.at, new.len(), &mixed)
}

// Applies the chosen sectors of all writes, and answers the choices that are left.
fn choose_all<'a>(
    alloc: Global,
    choice: &'a [bool],
    pending: &[PendingWrite],
    file: &mut Vec<u8>,
) -> Result<&'a [bool], AllocError>
    ensures file { OnOk result (file.new.items ≡ all_chosen choice.now (map write_of pending.now) file.old.items) }
    ensures rest { IfOk result (λ rest. rest.now ≡ drop (all_sectors (map write_of pending.now)) choice.now) }
{
    let mut rest = choice;
    for write in pending {
        choose(alloc, rest, write, file)?;
        rest = first_part(rest, write.bytes.as_slice().len() / 512).1;
    }
    Ok(rest)
}

/// The image of the files that these choices make.
pub fn image(
    alloc: Global,
    files: Vec<SceneFile>,
    choice: &[bool],
) -> Result<Seq<ImageFile>, AllocError>
    ensures { IfOk result (λ i. i ≡ chosen_image choice.now (disk_of files.items)) }
{
    let mut out = Vec::new(alloc);
    let mut rest = choice;
    for file in files {
        let mut bytes = file.stable;
        rest = choose_all(alloc, rest, &file.pending, &mut bytes)?;
        out.push(ImageFile {
            id: file.id,
            place: file.place,
            bytes: Bytes::from_vec(bytes),
        })?;
    }
    Ok(Seq::from_vec(out))
}
