ghost use Rattle.std.specs.Prelude.{◌≡◌};
ghost use Rattle.book.specs.Takes.{take_out};

use custody::custodian::Custodian;
use rules::refusal::Refusal;

/// Takes units out of a box, or is refused because it holds fewer.
pub(crate) fn take_out<Custody: Custodian>(
    custody: &mut Custody,
    box_number: usize,
    units: u64,
) -> Result<(), Refusal>
    ensures { (result, Custody.Custodian.boxes custody.new) ≡ take_out (Custody.Custodian.boxes custody.old) box_number units }
{
    Ok(custody.take(box_number, units)?)
}
