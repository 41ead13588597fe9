//! What holds of the documents of every command.

ghost use Rattle.std.specs.Prelude.{◌≡◌};
ghost use Rattle.jobs_top.specs.Documents.{IsAccepted, IsRefusalOf};
ghost use Rattle.jobs_top.specs.Failures.{status_of};
ghost use Rattle.jobs_top.specs.declared.acceptance.Accepted.{Accepted};
ghost use Rattle.jobs_top.specs.declared.documents.Documents.{Documents};
ghost use Rattle.jobs_top.specs.declared.failure.Failure.{Failure};
ghost use Rattle.jobs_top.specs.declared.status.Status.TheVariants.{Refused};

/// Documents that are accepted have no refusal.
pub fn accepted_documents_are_not_refused()
    ensures { (documents : Documents) (accepted : Accepted) (failure : Failure)
        → IsAccepted documents accepted → status_of failure ≡ Refused → IsRefusalOf documents failure → ⊥ }
{}
