ghost use Rattle.std.specs.Prelude.{◌≡◌, ℕ, ◌<◌, ◌≤◌};
ghost use Rattle.rules.specs.declared.boxes.DepositBox.{DepositBox as box_name};
ghost use Rattle.rules.specs.Pockets.{pocket_number};
ghost use Rattle.rules.specs.Sizes.{assets, sum};
ghost use Rattle.rules.specs.Values.{applied};
ghost use Rattle.rules.specs.Figures.{worth, pocket_value, applied_pocket as applied_pocket_of};
ghost use Rattle.figures.specs.Bounds.{most_worth};

use crate::ledger::Ledger;
use rules::boxes::DepositBox;
use rules::pocket::Pocket;
use rules::sizes::ASSETS;
use rules::value::{applied_value, market_value};

// A box of an asset that there is, in all three below, and named by its number: the definitions are of every number, and
// with an `Asset` in its place one would be made of each number that is counted, and taken back to it for the box. That a
// box is worth at most so much is said with each value, and asked of the closure that is summed up.

/// The market value of a box.
pub(crate) fn box_value<L: Ledger>(ledger: &L, place: DepositBox) -> u64
    requires { place.asset < assets }
    ensures value { result ≡ worth (L.Ledger.state ledger.now).price (L.Ledger.state ledger.now).held place.account place.pocket place.asset }
    ensures small { result ≤ most_worth }
{
    let units = ledger.units(place.number());
    market_value(place.asset, ledger.price(place.asset), units).unwrap_or(0)
}

/// The applied value of a box: what the haircut leaves of its market value.
fn applied_box<L: Ledger>(ledger: &L, place: DepositBox) -> u64
    requires { place.asset < assets }
    ensures value { result ≡ applied (worth (L.Ledger.state ledger.now).price (L.Ledger.state ledger.now).held place.account place.pocket place.asset) ((L.Ledger.state ledger.now).haircut place.asset) }
    ensures small { result ≤ most_worth }
{
    let market = box_value(ledger, place);
    applied_value(market, ledger.haircut(place.asset)).unwrap_or(0)
}

/// The boxes of a pocket, each valued by itself, added up.
fn boxes_of<F: Fn(DepositBox) -> u64>(account: u16, pocket: Pocket, value_of: F) -> u64
    requires callable { (b : box_name) → b.asset < assets → F.pre value_of b }
    requires few { (b : box_name) (value : ℕ) → b.asset < assets → F.post value_of b value → value ≤ most_worth }
    ensures { (f : ℕ → ℕ) → ((b : box_name) (value : ℕ) → b.account ≡ account → b.pocket ≡ pocket_number pocket → b.asset < assets → F.post value_of b value → value ≡ f b.asset) → result ≡ sum assets f }
{
    let mut sum = 0;
    for asset in 0..ASSETS {
        sum += value_of(DepositBox {
            account,
            pocket: pocket as u8,
            asset,
        });
    }
    sum
}

/// The market value of a pocket.
pub(crate) fn pocket_value<L: Ledger>(ledger: &L, account: u16, pocket: Pocket) -> u64
    ensures { result ≡ pocket_value (L.Ledger.state ledger.now).price (L.Ledger.state ledger.now).held account (pocket_number pocket) }
{
    boxes_of(account, pocket, |place| box_value(ledger, place))
}

/// The applied value of a pocket.
pub(crate) fn applied_pocket<L: Ledger>(ledger: &L, account: u16, pocket: Pocket) -> u64
    ensures { result ≡ applied_pocket_of (L.Ledger.state ledger.now) account (pocket_number pocket) }
{
    boxes_of(account, pocket, |place| applied_box(ledger, place))
}
