ghost use Rattle.examples.specs.Witnesses.{Witnesses};

/// Does nothing. Its contract is that the law of runs is not empty, by histories that the checker computes.
pub fn law_is_not_empty()
    ensures { Witnesses }
{}
