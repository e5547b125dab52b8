//! Laws of the definitions, each as the contract of a function that does nothing.
ghost use Rattle.elk_json.specs.Laws.{AcceptedAreSound};

/// The document of a value that no rule refuses is sound.
pub fn accepted_are_sound()
    ensures { AcceptedAreSound }
{}
