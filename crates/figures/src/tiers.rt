ghost use Rattle.std.specs.Prelude.{◌≡◌};
ghost use Rattle.rules.specs.Claims.{lesser as lesser_of, remainder as remainder_of};

/// Splits a quantity at a bound: what remains beyond the bound, and what does not pass it. Every tier of claims is
/// this split.
pub(crate) fn split(quantity: u64, bound: u64) -> (u64, u64)
    ensures { result ≡ (remainder_of quantity bound, lesser_of quantity bound) }
{
    let lesser = quantity.min(bound);
    (quantity - lesser, lesser)
}
