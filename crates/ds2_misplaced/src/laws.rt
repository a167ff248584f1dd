//! A law of the rule on what is misplaced, over the definitions alone.
ghost use Rattle.ds2_misplaced.specs.MisplacedParts.{MisplacedIsBoth};

/// What is misplaced in a unit are calls of `setparms` and what `misplaced` looks at.
pub fn misplaced_is_both()
    ensures { MisplacedIsBoth }
{}
