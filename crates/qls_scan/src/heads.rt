// Reading the headers of the files in use.
ghost use Rattle.std.specs.Prelude.{◌≡◌, map, length, IfSome, IfOk};
ghost use Rattle.std.specs.List.{AllByRecursion, filter};
ghost use Rattle.qls_site.specs.Disk.{IdsRise, full, listing};
ghost use Rattle.qls_site.specs.Content.{Tells, OnlyLooks};
ghost use Rattle.qls_meaning.specs.Journals.{is_in_use};
ghost use Rattle.qls_scan.specs.Found.{HasCause, IsSpelledOn};
ghost use Rattle.qls_scan.specs.Heads.{IsListedOn, HeadIsRead, HeadsAreRead, HasLegalHeader, sized_head, head_from};
ghost use Rattle.qls_filehdr.specs.Header.{header_of, header_spelling};
ghost use Rattle.qls_scan.specs.declared.answers.ScanFault.TheVariants.{Damaged};

use crate::answers::{HeadedFile, ScanFault};
use qls_filehdr::{FileHeader, Rule};
use qls_model::Seq;
use qls_site::{FileAt, Place, Site};
use std::alloc::Global;

// The headers of the files in use, in the order of the listing, or the first fault that a file has by itself.
pub fn read_heads<S: Site>(
    alloc: Global,
    site: &mut S,
    files: &[FileAt],
) -> Result<Seq<HeadedFile>, ScanFault>
    requires listed { IfSome (S.told site.old) (λ c. (files.now ≡ listing c.now.disk) × IdsRise (full c.now.disk)) }
    ensures read { HeadsAreRead (S.told site.old) result }
    ensures told { Tells OnlyLooks (S.told site.old) (S.told site.new) }
    ensures cause { HasCause (S.faults site.old) (S.faults site.new) result }
    ensures syncs { S.syncs site.new ≡ S.syncs site.old }
    ensures legal { IfOk result (λ heads. AllByRecursion HasLegalHeader heads) }
    ensures spelled { IfOk result (λ heads. IfSome (S.told site.old) (λ c. AllByRecursion (IsSpelledOn c.now.disk) heads)) }
    ensures ids { IfOk result (λ heads. map (λ h. h.id) heads ≡ map (λ f. f.id) (filter (λ f. is_in_use f.place) files.now)) }
{
    let mut heads = Seq::new(alloc);
    for file in files {
        let Place::InUse = file.place else {
            continue;
        };
        let head = read_head(site, file)?;
        heads.push(head)?;
    }
    Ok(heads)
}

// The header of a file in use, or the first of the rules `short` to `size` that fails.
fn read_head<S: Site>(site: &mut S, file: &FileAt) -> Result<HeadedFile, ScanFault>
    requires listed { IfSome (S.told site.old) (IsListedOn file.now) }
    ensures read { IfSome (S.told site.old) (λ c. HeadIsRead c.now.disk file.now result) }
    ensures told { Tells OnlyLooks (S.told site.old) (S.told site.new) }
    ensures cause { HasCause (S.faults site.old) (S.faults site.new) result }
    ensures syncs { S.syncs site.new ≡ S.syncs site.old }
    ensures legal { IfOk result HasLegalHeader }
    ensures spelled { IfOk result (λ head. IfSome (S.told site.old) (λ c. IsSpelledOn c.now.disk head)) }
    ensures id { IfOk result (λ head. head.id ≡ file.now.id) }
{
    if file.size < 4_096 {
        return Err(damaged(file, Rule::Short));
    }
    let mut block = [0; 4_096];
    site.read(file.id, 0, &mut block)?;
    head_in(file, &block)
}

// The header that stands in these 4,096 bytes of the file, or the first of the rules `magic` to `size` that fails.
fn head_in(file: &FileAt, block: &[u8]) -> Result<HeadedFile, ScanFault>
    requires size { length block.now ≡ 4096 }
    ensures exact { result ≡ head_from file.now (header_of block.now) }
    ensures legal { IfOk result HasLegalHeader }
    ensures spelled { IfOk result (λ head. header_spelling head.header ≡ block.now) }
{
    match FileHeader::read(block) {
        Ok(header) => sized(file, header),
        Err(rule) => Err(damaged(file, rule)),
    }
}

// The file with its header, where its size is the one that the header tells.
fn sized(file: &FileAt, header: FileHeader) -> Result<HeadedFile, ScanFault>
    ensures exact { result ≡ sized_head file.now header }
{
    if file.size != 4_096 + 1_024 * u64::from(header.kib) {
        return Err(damaged(file, Rule::Size));
    }
    Ok(HeadedFile {
        id: file.id,
        header,
    })
}

// The rule fails at the file.
fn damaged(file: &FileAt, rule: Rule) -> ScanFault
    ensures exact { result ≡ Damaged file.now.id rule }
{
    ScanFault::Damaged {
        file: file.id,
        rule,
    }
}
