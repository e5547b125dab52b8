// Laws of the commands, each as the contract of a function that does nothing.
ghost use Rattle.elk_engine.specs.Again.{AnswersAreGood};

/// `check` says yes to each answer of `layout` that is no longer than `check` takes, unless an I/O error or out
/// of memory cuts its run short.
///
/// Proved:
/// - `check` of an answer of `layout` of at most 2^28 bytes ends with 0 and writes `yes`, unless an I/O error ends the run or memory
///   runs out.
pub fn answers_are_good()
    ensures { AnswersAreGood }
{}
