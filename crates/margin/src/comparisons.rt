ghost use Rattle.margin.specs.Comparisons.{NetAtMostGross, WorstIsALoss};

/// Does nothing. Its contract is that net margin is at most gross margin at equal rates.
pub fn net_at_most_gross()
    ensures { NetAtMostGross }
{}

/// Does nothing. Its contract is that worst-loss margin covers the loss of each scenario, and is one of them or 0.
pub fn worst_loss_is_a_loss()
    ensures { WorstIsALoss }
{}
