ghost use Rattle.rules.specs.Law.{LawOfRuns};

/// Does nothing. Its contract is the law of runs, for books over any lawful terms.
pub fn law_of_runs()
    ensures { LawOfRuns }
{}
