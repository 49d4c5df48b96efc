// A site, a script and serials in memory: each call once, and what failures and crashes leave.
ghost use Rattle.std.specs.Prelude.{IfOk};
ghost use Rattle.qls_site.specs.Content.{HasFile, HasRange};
ghost use Rattle.qls_memsite.specs.Memory.{content_of};

use crate::{CallKind, MemSerials, MemSite, MemSource};
use qls_model::{Bytes, NoMemory, Seq};
use qls_site::{
    DrawError, FileAt, ImageFile, Place, Serials, Site, SiteError, Source, SourceError,
};
use std::alloc::Global;
use std::test::Fail;

// The choices in these letters: t is true.
fn choices(alloc: Global, letters: &str) -> Result<Seq<bool>, Fail> {
    let mut choices = Seq::new(alloc);
    for letter in letters.as_bytes() {
        choices.push(*letter == b't')?;
    }
    Ok(choices)
}

// A byte of a file of the image.
fn byte_at(image: &Seq<ImageFile>, file: usize, at: usize) -> Option<u8> {
    let file = image.get(file)?;
    file.bytes.as_slice().get(at).copied()
}

#[test]
fn a_torn_write_leaves_the_chosen_sectors(rt: HostRuntime) -> Result<(), Fail> {
    let alloc = rt.alloc();
    let mut site = MemSite::new(alloc);
    site.create(7, 1, 4)?;
    site.write(7, 512, &[65; 1024])?;
    assert_eq!(rt; site.moment_count(), 3);
    for (letters, first, second) in [("", 0, 0), ("t", 65, 0), ("ft", 0, 65), ("tt", 65, 65)] {
        let image = site.image(2, &choices(alloc, letters)?)?;
        for (at, wanted) in [
            (511, 0),
            (512, first),
            (1023, first),
            (1024, second),
            (1536, 0),
        ] {
            assert_eq!(rt; byte_at(&image, 0, at), Some(wanted), "{letters} {at}");
        }
    }
    Ok(())
}

#[test]
fn a_failed_create_happened_or_not(rt: HostRuntime) -> Result<(), Fail> {
    let alloc = rt.alloc();
    let mut site = MemSite::new(alloc);
    site.fail_call(CallKind::Create, 1)?;
    assert_eq!(rt; site.create(7, 1, 4), Err(SiteError::Failed));
    assert_eq!(rt; site.moment_count(), 3);
    let none = Seq::new(alloc);
    let held = [site.image(1, &none)?.len(), site.image(2, &none)?.len()];
    assert_eq!(rt; held, [0, 1]);
    assert_eq!(rt; site.list(alloc)?.len(), 0);
    Ok(())
}

// A site of two files of 1,024 bytes, 9 in use and 4 in a pool.
fn two_files(alloc: Global) -> Result<MemSite, NoMemory>
    ensures there { IfOk result (λ site. HasFile 9 (content_of site)) }
    ensures range { IfOk result (λ site. HasRange 9 512 512 (content_of site)) }
{
    let mut files = Seq::new(alloc);
    files.push(ImageFile {
        id: 9,
        place: Place::InUse,
        bytes: Bytes::new(alloc, &[57; 1024])?,
    })?;
    files.push(ImageFile {
        id: 4,
        place: Place::Empty { part: 2, kib: 8 },
        bytes: Bytes::new(alloc, &[52; 1024])?,
    })?;
    MemSite::from_image(alloc, files)
}

#[test]
fn files_are_listed_by_id(rt: HostRuntime) -> Result<(), Fail> {
    let alloc = rt.alloc();
    let mut site = two_files(alloc)?;
    let listed = site.list(alloc)?;
    let four = FileAt {
        id: 4,
        place: Place::Empty { part: 2, kib: 8 },
        size: 1024,
    };
    let nine = FileAt {
        id: 9,
        place: Place::InUse,
        size: 1024,
    };
    assert_eq!(rt; listed.as_slice(), [four, nine].as_slice());
    let mut seen = [0; 512];
    site.read(9, 512, &mut seen)?;
    assert_eq!(rt; (seen[0], seen[511]), (57, 57));
    site.sync(9)?;
    assert_eq!(rt; (site.sync_count(), site.moment_count()), (1, 4));
    Ok(())
}

#[test]
fn a_failed_relocation_happened_or_not(rt: HostRuntime) -> Result<(), Fail> {
    let alloc = rt.alloc();
    let mut site = two_files(alloc)?;
    site.fail_call(CallKind::Relocate, 1)?;
    let to = Place::Empty { part: 1, kib: 4 };
    assert_eq!(rt; site.relocate(9, to), Err(SiteError::Failed));
    site.relocate(9, to)?;
    assert_eq!(rt; site.moment_count(), 4);
    for (moment, wanted) in [(1, Place::InUse), (2, to), (3, to)] {
        let image = site.image(moment, &choices(alloc, "")?)?;
        let place = image.get(1).map(|file| file.place);
        assert_eq!(rt; place, Some(wanted), "{moment}");
    }
    Ok(())
}

#[test]
fn a_failed_answer_happened_or_not(rt: HostRuntime) -> Result<(), Fail> {
    let alloc = rt.alloc();
    let mut site = MemSite::new(alloc);
    site.fail_call(CallKind::Answer, 2)?;
    site.answer(b"ok")?;
    assert_eq!(rt; site.answer(b"no"), Err(SiteError::Failed));
    site.answer(b".")?;
    assert_eq!(rt; site.answered(), b"ok.".as_slice());
    assert_eq!(rt; site.moment_count(), 5);
    for (moment, wanted) in [(0, ""), (1, "ok"), (2, "ok"), (3, "okno"), (4, "ok.")] {
        let answered = site.answered_at(moment)?;
        assert_eq!(rt; answered.as_slice(), wanted.as_bytes(), "{moment}");
    }
    Ok(())
}

#[test]
fn a_failed_write_is_pending(rt: HostRuntime) -> Result<(), Fail> {
    let alloc = rt.alloc();
    let mut site = two_files(alloc)?;
    site.fail_call(CallKind::Write, 1)?;
    assert_eq!(rt; site.write(9, 512, &[65; 512]), Err(SiteError::Failed));
    assert_eq!(rt; site.moment_count(), 2);
    for (letters, wanted) in [("", 57), ("t", 65)] {
        let image = site.image(1, &choices(alloc, letters)?)?;
        assert_eq!(rt; byte_at(&image, 1, 512), Some(wanted), "{letters}");
    }
    Ok(())
}

#[test]
fn calls_fail_as_they_are_set_to(rt: HostRuntime) -> Result<(), Fail> {
    let alloc = rt.alloc();
    let mut site = MemSite::new(alloc);
    site.fail_call(CallKind::Any, 2)?;
    site.fail_call(CallKind::List, 0)?;
    site.stop_at(5);
    site.stop_at(4);
    site.stop_at(0);
    for wanted in [true, false, true, false, false] {
        assert_eq!(rt; site.answer(b"x").is_ok(), wanted);
    }
    assert_eq!(rt; site.answered(), b"xx".as_slice());
    Ok(())
}

#[test]
fn a_script_comes_in_pieces(rt: HostRuntime) -> Result<(), Fail> {
    let alloc = rt.alloc();
    let mut source = MemSource::new(alloc, Bytes::new(alloc, b"queue a")?, 5);
    source.fail_read(2);
    let mut into = [0; 8];
    assert_eq!(rt; source.read(&mut into), Ok(5));
    assert_eq!(rt; &into[..5], b"queue".as_slice());
    for wanted in [Err(SourceError::Failed), Ok(2), Ok(0)] {
        assert_eq!(rt; source.read(&mut into), wanted);
    }
    assert_eq!(rt; &into[..2], b" a".as_slice());
    Ok(())
}

#[test]
fn serials_count_and_wrap(rt: HostRuntime) {
    let mut serials = MemSerials::counting(u64::MAX);
    serials.fail_draw(2);
    for wanted in [Ok(u64::MAX), Err(DrawError::Failed), Ok(0), Ok(1)] {
        assert_eq!(rt; serials.draw(), wanted);
    }
}

#[test]
fn errors_have_texts(rt: HostRuntime) -> Result<(), Fail> {
    let alloc = rt.alloc();
    let texts = [
        format!(in alloc; "{}", SiteError::Failed)?,
        format!(in alloc; "{}", SiteError::Memory)?,
        format!(in alloc; "{}", SourceError::Failed)?,
        format!(in alloc; "{}", DrawError::Failed)?,
    ];
    for (text, wanted) in texts
        .iter()
        .zip(["failed", "want of memory", "failed", "failed"])
    {
        assert_eq!(rt; text.as_str(), wanted);
    }
    Ok(())
}
