//! What follows from the definition of verdicts alone.
ghost use Rattle.std.specs.Prelude.{◌≡◌, true, List, Ok};
ghost use Rattle.dh_changes.specs.declared.change.Write.{Write};
ghost use Rattle.dh_metadata.specs.declared.held.Records.{Records};
ghost use Rattle.engine.specs.Requests.{Asked, judged, is_report_status};
ghost use Rattle.engine.specs.declared.request.Judged.{Judged};

/// The status of a report is 200 or 409, whatever the kind of request.
pub fn report_statuses()
    ensures { (meta : Records) → (writes : List Write) → (asked : Asked) → (found : Judged) → judged meta writes asked ≡ Ok found
        → is_report_status found.status ≡ true }
{}
