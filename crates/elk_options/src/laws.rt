//! Laws of the definitions, as the contract of a function that does nothing.
ghost use Rattle.elk_options.specs.Laws.{ComponentIsSound, IndexIsSound, NoOptionsAskNothing, NothingAskedIsDefault, NothingAskedIsNotBad, PaddingIsSound, SpacingIsSound, WeightIsSound};

/// Distances, paddings, indices and weights keep their ranges.
pub fn options_keep_ranges()
    ensures spacing { SpacingIsSound }
    ensures component { ComponentIsSound }
    ensures padding { PaddingIsSound }
    ensures index { IndexIsSound }
    ensures weight { WeightIsSound }
{}

/// If none of the options is there, as when no options are given at all, none is bad, and a level has the options of
/// `default_options` that flow to the right.
///
/// Proved:
/// - If none of the options is given, none is bad, and a level has its default options.
pub fn nothing_asked_is_default()
    ensures none { NoOptionsAskNothing }
    ensures not_bad { NothingAskedIsNotBad }
    ensures default { NothingAskedIsDefault }
{}
