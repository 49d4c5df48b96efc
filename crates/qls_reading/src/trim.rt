// The files of a journal that was read, as a log takes them over.
ghost use Rattle.std.specs.Prelude.{◌≡◌, map, IfOk, IfErr, IfSome};
ghost use Rattle.std.specs.List.{AllByRecursion};
ghost use Rattle.qls_scan.specs.Heads.{HasLegalHeader};
ghost use Rattle.qls_pool.specs.Files.{OnDisk, RestsThere};
ghost use Rattle.qls_reading.specs.ReadLogs.{linked, first_home};

use qls_log::LogError;
use qls_model::PoolId;
use qls_pool::Linked;
use qls_scan::HeadedFile;
use qls_site::Site;

// The pool that the first file's header names.
pub fn home_of(files: &[HeadedFile]) -> PoolId
    ensures exact { result ≡ first_home files.now }
{
    match files.first() {
        Some(file) => PoolId {
            part: file.header.part,
            kib: file.header.kib,
        },
        None => PoolId { part: 0, kib: 0 },
    }
}

// Takes over files that earlier openings put into use. Where told, each rests on the site.
pub fn adopt_all<S: Site>(site: &S, files: Vec<HeadedFile>) -> Result<Vec<Linked>, LogError>
    requires legal { AllByRecursion HasLegalHeader files.items }
    requires there { IfSome (S.told site.now) (OnDisk (λ d. AllByRecursion (λ h. RestsThere h d) (map linked files.items))) }
    ensures exact { IfOk result (λ all. all.items ≡ map linked files.items) }
    ensures only { IfErr result (λ e. e ≡ LogError.Memory) }
{
    let mut all = Vec::new(*files.allocator());
    for file in files {
        all.push(Linked::adopt(site, file.id, file.header))?;
    }
    Ok(all)
}
