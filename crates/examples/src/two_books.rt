ghost use Rattle.std.specs.Prelude.{◌≡◌, ℕ, List};
ghost use Rattle.rules.specs.States.{made};
ghost use Rattle.rules.specs.Figures.{ask_customer};
ghost use Rattle.rules.specs.Orders.{Order};
ghost use Rattle.rules.specs.Runs.{run, history, accepted_for};

use book::orders::MarginBook;

/// Does nothing. Its contract is that a customer's answer depends on its own dealings alone, for two books of any two
/// types: other custodians, other methods, other orders.
pub fn answers_alike<First: MarginBook, Second: MarginBook>(first: &First, second: &Second)
    ensures { (orders others : List Order) (account : ℕ) → accepted_for account (history (First.MarginBook.terms first.now) made orders) ≡ accepted_for account (history (Second.MarginBook.terms second.now) made others) → ask_customer (run (First.MarginBook.terms first.now) made orders) account ≡ ask_customer (run (Second.MarginBook.terms second.now) made others) account }
{
    first.law_of_runs();
    second.law_of_runs();
}
