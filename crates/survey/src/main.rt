//! Drafts two charts, seals them, and reports the least minutes and the first plan that takes them; then prices the small
//! one under rules.
#![tactic(auto)]

use casebooks::casebook::Casebook;
use charts::chart::{Chart, Draft};
use rules::bank::Bank;
use rules::budget::Budget;
use rules::once::Once;
use rules::order::{Order, Precedence};
use rules::pair::Pair;
use std::io;
use sweeps::least::least_minutes;
use terms::arc::NewArc;
use terms::refusal::Refusal;
use terms::routes::RouteSet;

/// Two places, and two arcs at each: route 1 or route 2.
fn small_chart() -> Result<Chart, Refusal> {
    let mut draft = Draft::new();
    draft.places(2)?;
    draft.arc(hop(1, 0, 0, 1, 4))?;
    draft.arc(hop(1, 0, 0, 2, 9))?;
    draft.arc(hop(2, 0, 0, 1, 3))?;
    draft.arc(hop(2, 0, 0, 2, 10))?;
    Ok(draft.seal())
}

/// An arc by its five numbers. Other samples have such a helper too: each is a text that is read by itself.
fn hop(place: u64, start: u64, end: u64, route: u64, minutes: u64) -> NewArc {
    NewArc {
        place,
        start,
        end,
        route,
        minutes,
    }
}

/// 32 places and 1,024 arcs, 32 at each place. At the inner places two arcs leave every second node.
fn large_chart() -> Result<Chart, Refusal> {
    let mut draft = Draft::new();
    draft.places(32)?;
    // Numbers that are made: there is no list of them.
    for place in 1..=32u64 {
        for i in 0..32u64 {
            draft.arc(large_arc(place, i))?;
        }
    }
    Ok(draft.seal())
}

/// The arc number `i` of a place of the large chart.
fn large_arc(place: u64, i: u64) -> NewArc {
    let start = if place <= 1 { 0 } else { i - i % 2 };
    let end = if place >= 32 {
        0
    } else {
        i.wrapping_mul(6).wrapping_add(place) % 16 * 2
    };
    let route = place.wrapping_mul(7).wrapping_add(i) % 64;
    let minutes = place.wrapping_mul(37).wrapping_add(i.wrapping_mul(91)) % 100 + 1;
    hop(place, start, end, route, minutes)
}

/// Prints what a chart has, and its first plan of the least minutes.
fn report(rt: &impl Print, name: &str, drafted: Result<Chart, Refusal>) -> io::Result<()> {
    let chart = match drafted {
        Ok(chart) => chart,
        Err(refusal) => return println!(rt; "{name}: refused {refusal}"),
    };
    let places = chart.places();
    let arcs = chart.count();
    println!(rt; "{name}: {places} places, {arcs} arcs")?;
    let mut plan = [0usize; 32];
    match least_minutes(&chart, &mut plan) {
        Ok(Some(minutes)) => {
            print!(rt; "least minutes {minutes}, first by arcs")?;
            for arc in &plan[..usize::from(places)] {
                print!(rt; " {arc}")?;
            }
            println!(rt; "")
        }
        Ok(None) => println!(rt; "no plan"),
        Err(refusal) => println!(rt; "refused {refusal}"),
    }
}

/// The routes 1 and 2.
fn both_routes() -> RouteSet {
    let mut routes = RouteSet::none();
    let _ = routes.insert(1);
    let _ = routes.insert(2);
    routes
}

/// Prices a chart of two places where routes 1 and 2 are each tested once, 2 before 1, and no load is limited: 5,000
/// thousandths of a minute for each test of route 1 beyond the one wanted.
fn report_price(rt: &impl Print, name: &str, drafted: Result<Chart, Refusal>) -> io::Result<()> {
    let Ok(chart) = drafted else {
        return println!(rt; "{name}: refused");
    };
    let pairs = [Precedence {
        earlier: 2,
        later: 1,
    }];
    let once = Once::new(both_routes());
    let further = Pair::new(Order::new(&pairs), Budget::new(0, &[]));
    let book = Casebook::open(chart, Pair::new(once, further));
    let mut plan = [0usize; 2];
    match book.price(&[5000, 0, 0, 0], &mut plan) {
        Ok(Some(amount)) => {
            let [first, second] = plan;
            println!(rt;
                "{name} with 5000 for rule 0: priced {amount}, first by arcs {first} {second}"
            )
        }
        Ok(None) => println!(rt; "{name} with 5000 for rule 0: no plan"),
        Err(refusal) => println!(rt; "{name} with 5000 for rule 0: refused {refusal}"),
    }
}

fn main(rt: HostRuntime) -> io::Result<()> {
    report(&rt, "small chart", small_chart())?;
    report(&rt, "large chart", large_chart())?;
    report_price(&rt, "small chart", small_chart())?;
    println!(rt;
        "Two charts were drafted and sealed, each has its first plan of the least minutes above, and one was priced."
    )
}
