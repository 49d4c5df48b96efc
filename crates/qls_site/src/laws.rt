// Laws of the disk, each the contract of a function.
ghost use Rattle.std.specs.Prelude.{◌≡◌, ℕ, Bool, List, IfSome, length};
ghost use Rattle.qls_site.specs.Disk.{Disk, Image, IsImage, IsQuiet, WritesLieWithin, full, bare, at_rest, write_at, sync_at, create_at, relocate_at};
ghost use Rattle.qls_site.specs.Chosen.{WritesAreSectors, chosen_image};
ghost use Rattle.qls_site.specs.declared.site.Place.{Place};

/// A disk with nothing pending has one image: what a reader sees.
pub fn quiet_disk_has_one_image()
    ensures one { (d : Disk) (i : Image) → IsQuiet d → IsImage d i → i ≡ full d }
{}

/// A crash may keep no sector of any pending write.
pub fn bare_is_an_image()
    ensures bare { (d : Disk) → IsImage d (bare d) }
{}

/// A crash may keep every sector of every pending write, where the writes lie in their files.
pub fn full_is_an_image()
    ensures full { (d : Disk) → WritesLieWithin d → IsImage d (full d) }
{}

/// A crash may keep any chosen sectors, where the writes cover whole sectors of their files.
pub fn chosen_is_an_image()
    ensures chosen { (cs : List Bool) (d : Disk) → WritesLieWithin d → WritesAreSectors d → IsImage d (chosen_image cs d) }
{}

/// What a crash left is at rest: nothing is pending, and a reader sees just that.
pub fn an_image_is_at_rest()
    ensures quiet { (i : Image) → IsQuiet (at_rest i) }
    ensures seen { (i : Image) → full (at_rest i) ≡ i }
{}
