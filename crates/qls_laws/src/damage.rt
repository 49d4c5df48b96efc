// Laws of files and journals that break no rule.
ghost use Rattle.std.specs.Prelude.{◌≡◌, Ok};
ghost use Rattle.qls_site.specs.Disk.{Image};
ghost use Rattle.qls_meaning.specs.Journals.{journals_of};
ghost use Rattle.qls_meaning.specs.Damage.{undamaged};
ghost use Rattle.qls_laws.specs.Undamaged.{FilesBreakNoRule, JournalsBreakNoRule};

/// An image has no damage where no file breaks a rule for itself, and the journal of each file in use breaks none.
pub fn sound_journals_make_a_sound_image()
    ensures whole { (i : Image) → FilesBreakNoRule i → JournalsBreakNoRule i → undamaged i ≡ Ok (journals_of i) }
{}
