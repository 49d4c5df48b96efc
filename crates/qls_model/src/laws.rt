//! Laws of settling. Each function does nothing: its contract is the law.
ghost use Rattle.std.specs.Prelude.{◌≡◌, filter};
ghost use Rattle.qls_model.specs.Machine.{MachineState, is_prepared, settle, state_after};
ghost use Rattle.qls_model.specs.Settling.{aborts, open_xids};
ghost use Rattle.qls_model.specs.Sound.{XidsOnce};

/// Settling a settled state changes nothing.
pub fn settling_twice_is_once()
    ensures { (S : MachineState) → settle (settle S) ≡ settle S }
{}

/// A state is settled by the command `abort` for each open xid in turn.
pub fn settling_is_aborts()
    ensures { (S : MachineState) → XidsOnce S.xids → state_after S (aborts (open_xids S.xids)) ≡ settle S }
{}

/// A state whose xids are all prepared is settled.
pub fn prepared_is_settled()
    ensures { (S : MachineState) → filter (λ e. is_prepared e.phase) S.xids ≡ S.xids → settle S ≡ S }
{}
