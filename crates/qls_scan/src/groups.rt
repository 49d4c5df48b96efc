// The files in use grouped into journals.
ghost use Rattle.std.specs.Prelude.{◌≡◌, ◌∷◌, ◌++◌, List, map, None, IfOk, OnOk};
ghost use Rattle.std.specs.List.{AllByRecursion};
ghost use Rattle.std.specs.BTreeMap.{insert_entry, values};
ghost use Rattle.qls_meaning.specs.Journals.{Headed, journals};
ghost use Rattle.qls_scan.specs.Found.{with_no_area, files_of};
ghost use Rattle.qls_scan.specs.Heads.{HasLegalHeader};
ghost use Rattle.qls_scan.specs.Groups.{IdsDiffer, LacksId, IsGrouped, number_cmp, number_key, within, with_file_of_queue, add_to, list_found, queue_found};

use crate::answers::{HeadedFile, JournalFiles};
use qls_filehdr::JournalKind;
use qls_model::{Name, NoMemory, Seq};
use std::alloc::Global;
use std::collections::BTreeMap;

// The files of one journal by number, and among files of one number by id.
type Numbered = BTreeMap<(u64, u64), HeadedFile>;

// The files of the prepared list, and those of each queue by its name.
#[derive(Drop)]
struct Groups {
    list: Numbered,
    queues: BTreeMap<Name, Numbered>,
}

// The journals of these files: the prepared list first, then the queues by name. It takes time in n log n.
pub fn group(alloc: Global, heads: Seq<HeadedFile>) -> Result<Seq<JournalFiles>, NoMemory>
    requires differ { IdsDiffer (map with_no_area heads) }
    requires legal { AllByRecursion HasLegalHeader heads }
    ensures grouped { IfOk result (λ found. found ≡ map files_of (journals (map with_no_area heads))) }
{
    let groups = groups_of(alloc, heads)?;
    let Groups { list, queues } = groups;
    let found = list_journal(alloc, list)?;
    with_queues(alloc, found, queues)
}

// The files in their groups. It goes from the last file on.
fn groups_of(alloc: Global, heads: Seq<HeadedFile>) -> Result<Groups, NoMemory>
    requires differ { IdsDiffer (map with_no_area heads) }
    requires legal { AllByRecursion HasLegalHeader heads }
    ensures grouped { IfOk result (λ groups. IsGrouped groups (map with_no_area heads)) }
{
    let mut heads = heads;
    let mut groups = Groups {
        list: BTreeMap::new(alloc),
        queues: BTreeMap::new(alloc),
    };
    while let Some(file) = heads.pop() {
        groups.add(alloc, file)?;
    }
    Ok(groups)
}

impl Groups {
    // Puts a file into its group.
    fn add(&mut self, alloc: Global, file: HeadedFile) -> Result<(), NoMemory>
        ensures added { OnOk result ((fs : List Headed) → IsGrouped self.old fs → LacksId file.id fs → HasLegalHeader file → IsGrouped self.new (with_no_area file ∷ fs)) }
    {
        match file.header.kind {
            JournalKind::List => add_file(&mut self.list, file),
            JournalKind::Queue => add_to_queue(alloc, &mut self.queues, file),
        }
    }
}

// Puts a file into a group.
fn add_file(files: &mut Numbered, file: HeadedFile) -> Result<(), NoMemory>
    ensures added { OnOk result (files.new.entries ≡ insert_entry number_cmp files.old.entries (number_key file) file) }
{
    files.insert((file.header.number, file.id), file)?;
    Ok(())
}

// Puts a file of a queue into the queue's group, or begins this with it.
fn add_to_queue(
    alloc: Global,
    queues: &mut BTreeMap<Name, Numbered>,
    file: HeadedFile,
) -> Result<(), NoMemory>
    ensures added { OnOk result (within queues.new.entries ≡ with_file_of_queue file (within queues.old.entries)) }
{
    match queues.get_mut(&file.header.name) {
        Some(files) => add_file(files, file),
        None => begin_queue(alloc, queues, file),
    }
}

// Begins the group of a queue with a file.
fn begin_queue(
    alloc: Global,
    queues: &mut BTreeMap<Name, Numbered>,
    file: HeadedFile,
) -> Result<(), NoMemory>
    ensures added { OnOk result (within queues.new.entries ≡ add_to file (within queues.old.entries) None) }
{
    let name = name_of(&file);
    let mut files = BTreeMap::new(alloc);
    add_file(&mut files, file)?;
    queues.insert(name, files)?;
    Ok(())
}

// The name of the file's queue.
fn name_of(file: &HeadedFile) -> Name
    ensures name { result ≡ file.now.header.name }
{
    file.header.name
}

// The journal of the prepared list, where it has a file.
fn list_journal(alloc: Global, list: Numbered) -> Result<Seq<JournalFiles>, NoMemory>
    ensures found { IfOk result (λ found. found ≡ list_found (values list)) }
{
    let mut found = Seq::new(alloc);
    if list.is_empty() {
        return Ok(found);
    }
    found.push(JournalFiles {
        kind: JournalKind::List,
        name: Name::new(b"").unwrap(),
        files: in_order(alloc, list)?,
    })?;
    Ok(found)
}

// These journals, and behind them those of the queues by name.
fn with_queues(
    alloc: Global,
    found: Seq<JournalFiles>,
    queues: BTreeMap<Name, Numbered>,
) -> Result<Seq<JournalFiles>, NoMemory>
    ensures found { IfOk result (λ all. all ≡ found ++ map queue_found (within queues.entries)) }
{
    let (mut found, mut queues) = (found, queues);
    while let Some((name, files)) = queues.pop_first() {
        found.push(JournalFiles {
            kind: JournalKind::Queue,
            name,
            files: in_order(alloc, files)?,
        })?;
    }
    Ok(found)
}

// The files of a group by number.
fn in_order(alloc: Global, files: Numbered) -> Result<Seq<HeadedFile>, NoMemory>
    ensures files { IfOk result (λ ordered. ordered ≡ values files) }
{
    let mut files = files;
    let mut ordered = Seq::new(alloc);
    while let Some((_, file)) = files.pop_first() {
        ordered.push(file)?;
    }
    Ok(ordered)
}
