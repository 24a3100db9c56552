ghost use Rattle.std.specs.Prelude.{◌≡◌, ◌*◌, ◌≤◌};
ghost use Rattle.margin.specs.Rates.{most_rate, clamped, asked};
ghost use Rattle.margin.specs.RateLaws.{asked_lawful};

use crate::counts::BoundedCounts;
use crate::lot_counting::LotCounting;
use crate::method::MarginMethod;
use crate::rates::Rates;
use rules::row::Lots;
use rules::sizes::CONTRACTS;
use std::marker::PhantomData;

/// Margin by rates: the lots of each contract, counted in one way, at the contract's rate, all added up.
#[derive(Clone, Copy)]
pub struct RateMargin<Way> {
    pub(crate) rates: Rates,
    way: PhantomData<Way>,
}

/// What one contract asks: a rate for each lot that counts.
fn asked<Way: LotCounting>(lots: Lots, rate: u32) -> u64
    requires { rate ≤ most_rate }
    ensures { result ≡ Way.counted lots.long lots.short * rate }
{
    Way::count(lots) * u64::from(rate)
}

impl<Way: LotCounting> RateMargin<Way> {
    /// Takes the rate of each contract, in yen for a lot; a rate above 10,000,000 is taken as 10,000,000.
    pub fn new(sheet: [u32; CONTRACTS]) -> RateMargin<Way>
        ensures { result.rates.each ≡ clamped sheet }
    {
        RateMargin {
            rates: Rates::new(sheet),
            way: PhantomData,
        }
    }
}

impl<Way: LotCounting> MarginMethod for RateMargin<Way> {
    ghost amount = { λ method. asked Way.counted method.rates.each };

    ghost laws = { λ method. asked_lawful Way.counted Way.laws method.rates.each method.rates.fair };

    #[tactic(auto, using(rules::proofs::Sums::sum_none), unfolding(crate::specs::Rates::asked))]
    fn maintenance_amount(&self, counts: &BoundedCounts) -> u64 {
        // Contract by contract, with the number that picks the rate, is a rule of the project (docs/DECISIONS.md,
        // Shapes of the code).
        let mut sum = 0;
        for (contract, lots) in counts.counts.each.iter().enumerate() {
            sum += asked::<Way>(*lots, self.rates.each[contract]);
        }
        sum
    }
}
