//! How a sealed dossier is opened: a casebook on its chart and on the bank of its rules.
ghost use Rattle.std.specs.Prelude.{◌≡◌};
ghost use Rattle.charts.specs.Drafts.{places_of, arcs_of};
ghost use Rattle.judging.specs.Cases.{opened};
ghost use Rattle.casebooks.specs.Views.{problem_of, model_in};
ghost use Rattle.unsealed.specs.Books.{book_of, rules_of};
ghost use Rattle.dossiers.specs.Opened.{rules_in};

use casebooks::casebook::Casebook;
use charts::chart::Chart;
use rules::budget::Budget;
use rules::once::Once;
use rules::order::Order;
use rules::pair::Pair;
use terms::routes::RouteSet;
use unsealed::book::RuleBook;

/// Opens a casebook on the sealed chart and the rules of a dossier: once, then order, then budget.
pub fn open<'a>(
    chart: Chart,
    book: &'a RuleBook,
) -> Casebook<Pair<Once, Pair<Order<'a>, Budget<'a>>>>
    ensures judges { problem_of result.desk (rules_in result.bank) ≡ record { places = places_of chart; arcs = arcs_of chart; rules = rules_of (book_of book.now) } }
    ensures model { model_in result ≡ opened (problem_of result.desk (rules_in result.bank)) }
{
    let once = Once::new(book.once.unwrap_or(RouteSet::none()));
    let order = Order::new(&book.pairs);
    let budget = Budget::new(book.limit.unwrap_or(0), &book.entries);
    Casebook::open(chart, Pair::new(once, Pair::new(order, budget)))
}
