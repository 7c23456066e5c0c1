//! What the definitions come to. Each function here does nothing: its contract is a theorem.

ghost use Rattle.model.specs.Sources.{ListedIsSpelled};

/// A listed source has an offset for a job exactly where its bytes spell that many numbers and then this one.
pub fn listed_is_spelled()
    ensures { ListedIsSpelled }
{}
