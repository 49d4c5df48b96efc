// Laws over journals that were read. Each is the contract of a function that does nothing: calling it hands the law to the caller.
ghost use Rattle.std.specs.Prelude.{◌≡◌, List, false};
ghost use Rattle.qls_record.specs.declared.Got.{Got};
ghost use Rattle.qls_site.specs.Content.{Moment};
ghost use Rattle.qls_log.specs.declared.opening.Opening.{Opening};
ghost use Rattle.qls_log.specs.Steps.{IsLogStep, is_own};
ghost use Rattle.qls_reading.specs.ReadLogs.{ReadLogState, StandsAsRead, ReadsAs};

/// A step of the log of another journal leaves a journal that was read as it stands, and so what was read of it.
pub fn other_logs_leave_what_was_read()
    ensures stands { (o : Opening) (log : ReadLogState) (m n : Moment) → IsLogStep o m n → is_own o log.journal.kind log.journal.name ≡ false → StandsAsRead log m.disk → StandsAsRead log n.disk }
    ensures reads { (o : Opening) (log : ReadLogState) (records : List Got) (m n : Moment) → IsLogStep o m n → is_own o log.journal.kind log.journal.name ≡ false → ReadsAs log records m.disk → ReadsAs log records n.disk }
{}
