use crate::{HostSerials, HostSite, names};
use qls_site::{FileAt, Place, Serials, Site, SiteError};
use std::fs;
use std::os::unix::fs::symlink;
use std::test::Fail;

const FOLDER: &str = "qls_hostsite_test";

const POOL: Place = Place::Empty { part: 1, kib: 4 };

const USED: &str = "qls_hostsite_test/a/b/inuse/0000000000000000007.qls";

// A site of a folder that isn't there yet: two files are made, one comes into use, is written and
// read back, also by a second site once the first is gone.
#[test]
fn makes_moves_writes_and_reads(rt: HostRuntime) -> Result<(), Fail> {
    let _ = fs::remove_dir_all(&rt, FOLDER);
    fs::create_dir(&rt, FOLDER)?;
    let alloc = rt.alloc();
    let mut site = HostSite::new(&rt, alloc, "qls_hostsite_test/a/b")?;
    assert_eq!(rt; site.list(alloc)?.len(), 0);
    assert!(rt; !fs::exists(&rt, "qls_hostsite_test/a")?);
    site.create(9, 1, 4)?;
    site.create(7, 1, 4)?;
    site.relocate(7, Place::InUse)?;
    site.write(7, 512, &[65; 1024])?;
    site.sync(7)?;
    assert_eq!(rt; site.write(7, 8192, &[65; 512]), Err(SiteError::Failed));
    assert_eq!(rt; site.sync(7), Err(SiteError::Failed));
    let mut other = HostSite::new_shared(&rt, alloc, "qls_hostsite_test/a/b")?;
    assert!(rt; other.list(alloc).is_err());
    drop(site);
    let mut site = HostSite::new_shared(&rt, alloc, "qls_hostsite_test/a/b")?;
    let files = site.list(alloc)?;
    let size = 8192;
    assert_eq!(rt;
        files.get(0),
        Some(&FileAt {
            id: 7,
            place: Place::InUse,
            size
        })
    );
    assert_eq!(rt;
        files.get(1),
        Some(&FileAt {
            id: 9,
            place: POOL,
            size
        })
    );
    assert_eq!(rt; files.len(), 2);
    let mut back = [1; 1536];
    site.read(7, 256, &mut back)?;
    assert_eq!(rt;
        (back[255], back[256], back[1279], back[1280]),
        (0, 65, 65, 0)
    );
    assert_eq!(rt; site.create(8, 1, 4), Err(SiteError::Failed));
    drop(site);
    assert_eq!(rt; fs::read(&rt, USED)?.len(), 8192);
    fs::remove_dir_all(&rt, FOLDER)?;
    Ok(())
}

// Names of files and of pools, and names that are passed over.
#[test]
fn reads_names(rt: HostRuntime) -> Result<(), Fail> {
    for (name, id) in [
        ("0000000000000000007.qls", Some(7)),
        ("0000000000000000000.qls", Some(0)),
        ("9999999999999999999.qls", Some(9_999_999_999_999_999_999)),
        ("0000000000000000007.new", None),
        ("000000000000000007.qls", None),
        ("00000000000000000007.qls", None),
        ("000000000000000000a.qls", None),
        ("+000000000000000007.qls", None),
    ] {
        assert_eq!(rt; names::id_in(name), id, "at {name}");
    }
    for (name, number) in [
        ("0", Some(0)),
        ("999", Some(999)),
        ("4294967295", Some(4_294_967_295)),
        ("4294967296", None),
        ("04", None),
        ("00", None),
        ("+4", None),
        ("", None),
    ] {
        assert_eq!(rt; names::number_in(name), number, "at {name}");
    }
    Ok(())
}

#[test]
fn draws(rt: HostRuntime) -> Result<(), Fail> {
    let mut serials = HostSerials::new(&rt)?;
    assert!(rt; serials.draw().is_ok());
    Ok(())
}
