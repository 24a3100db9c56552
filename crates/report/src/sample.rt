ghost use Rattle.report.specs.Sample.{SampleStands};

/// Does nothing. Its contract is that a file of four orders is answered by the very bytes that are written out there.
pub fn sample_stands()
    ensures { SampleStands }
{}
