ghost use Rattle.examples.specs.Worked.{WorkedFigures};

/// Does nothing. Its contract is the worked figures, computed from the definitions.
pub fn worked_figures_stand()
    ensures { WorkedFigures }
{}
