ghost use Rattle.orders.specs.Law.{LawOfFiles};
ghost use Rattle.orders.specs.Worked.{WorkedFile};

/// Does nothing. Its contract is the law of files: every list of bytes is the file of just one list of orders, or is at
/// fault in just one way, and reading tells which.
#[tactic(auto, using(crate::proofs::Whole::law))]
pub fn law_of_files()
    ensures { LawOfFiles }
{}

/// Does nothing. Its contract is a file worked out by hand.
#[tactic(auto, unfolding(crate::specs::Reading::orders_from, crate::specs::Files::written, crate::specs::Files::file_of))]
pub fn worked_file()
    ensures { WorkedFile }
{}
