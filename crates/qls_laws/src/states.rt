// Laws of what an image means.
ghost use Rattle.std.specs.Prelude.{◌≡◌, [], Ok};
ghost use Rattle.qls_model.specs.Machine.{MachineState, empty_state, settle};
ghost use Rattle.qls_site.specs.Disk.{Image};
ghost use Rattle.qls_meaning.specs.Meaning.{meaning};

/// An image without files means the empty state.
pub fn no_files_mean_the_empty_state()
    ensures empty { meaning [] ≡ Ok empty_state }
{}

/// What an image means is settled: it has no open xid.
pub fn meaning_is_settled()
    ensures settled { (i : Image) (S : MachineState) → meaning i ≡ Ok S → settle S ≡ S }
{}
