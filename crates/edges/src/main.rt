//! Judges a claim on a small chart, and then tries the nine calls of a casebook at their edges. Each reply is printed and
//! compared with the one expected; a line FAILED follows where it is another.
#![tactic(auto)]

mod reply;

use crate::reply::{Answer, Reply};
use casebooks::casebook::Casebook;
use charts::chart::{Chart, Draft};
use rules::bank::Bank;
use rules::budget::Budget;
use rules::once::Once;
use rules::order::{Order, Precedence};
use rules::pair::Pair;
use std::io;
use terms::arc::NewArc;
use terms::refusal::Refusal;
use terms::routes::RouteSet;
use terms::verdict::Verdict;

/// Multipliers for the four rules, in thousandths of a minute: 0 for each.
const NONE: [i64; 4] = [0, 0, 0, 0];

/// 5,000 for rule 0.
const RULE_0: [i64; 4] = [5000, 0, 0, 0];

/// -1 for rule 0, an exactly rule.
const RULE_0_BELOW: [i64; 4] = [-1, 0, 0, 0];

/// -1 for rule 2, an at most rule.
const RULE_2_BELOW: [i64; 4] = [0, 0, -1, 0];

/// Prints a reply, and a line that says so where another was expected.
fn report(
    rt: &impl Print,
    call: &str,
    reply: Reply,
    expected: Result<Answer, Refusal>,
) -> io::Result<()> {
    println!(rt; "{call}: {reply}")?;
    let wanted = Reply(expected);
    if reply != wanted {
        println!(rt; "FAILED: expected {wanted}")?;
    }
    Ok(())
}

/// Prints what a buffer of two arcs holds, and a line that says so where another plan was expected.
fn report_plan(rt: &impl Print, plan: [usize; 2], expected: [usize; 2]) -> io::Result<()> {
    let [first, second] = plan;
    println!(rt; "    buffer {first} {second}")?;
    if plan != expected {
        println!(rt; "FAILED: another plan was expected in it")?;
    }
    Ok(())
}

/// An arc from node 0 to node 0. Other samples have such a helper too: each is a text that is read by itself.
fn straight(place: u64, route: u64, minutes: u64) -> NewArc {
    NewArc {
        place,
        start: 0,
        end: 0,
        route,
        minutes,
    }
}

/// Two places, and two arcs at each: route 1 or route 2.
fn drafted(rt: &impl Print) -> io::Result<Draft> {
    let mut draft = Draft::new();
    let places = Reply::from(draft.places(2));
    report(rt, "places 2", places, Ok(Answer::Number(2)))?;
    let first = draft.arc(straight(1, 1, 4));
    report(
        rt,
        "arc 1 0 0 1 4",
        Reply::from(first),
        Ok(Answer::Number(0)),
    )?;
    let second = draft.arc(straight(1, 2, 9));
    report(
        rt,
        "arc 1 0 0 2 9",
        Reply::from(second),
        Ok(Answer::Number(1)),
    )?;
    let third = draft.arc(straight(2, 1, 3));
    report(
        rt,
        "arc 2 0 0 1 3",
        Reply::from(third),
        Ok(Answer::Number(2)),
    )?;
    let fourth = draft.arc(straight(2, 2, 10));
    report(
        rt,
        "arc 2 0 0 2 10",
        Reply::from(fourth),
        Ok(Answer::Number(3)),
    )?;
    Ok(draft)
}

/// The draft, sealed.
fn sealed(rt: &impl Print, draft: Draft) -> io::Result<Chart> {
    let chart = draft.seal();
    let arcs = Reply(Ok(Answer::Number(chart.count())));
    report(rt, "seal", arcs, Ok(Answer::Number(4)))?;
    Ok(chart)
}

/// A set of routes; a number that is no route's is left out.
fn set_of(routes: &[u64]) -> RouteSet {
    let mut set = RouteSet::none();
    for route in routes {
        let _ = set.insert(*route);
    }
    set
}

/// Prints how many rules a bank has.
fn report_rules<B: Bank>(rt: &impl Print, make: &str, bank: &B, expected: usize) -> io::Result<()> {
    let rules = Reply(Ok(Answer::Number(bank.count())));
    report(rt, make, rules, Ok(Answer::Number(expected)))
}

/// Claims, with one case open afterwards.
fn claim<B: Bank>(
    rt: &impl Print,
    book: &mut Casebook<B>,
    call: &str,
    minutes: u64,
) -> io::Result<()> {
    let reply = Reply::from(book.claim(minutes));
    report(rt, call, reply, Ok(Answer::Number(1)))
}

/// Prices, and prints the amount and the plan.
fn price<B: Bank>(
    rt: &impl Print,
    book: &Casebook<B>,
    call: &str,
    multipliers: &[i64],
    amount: i64,
    expected: [usize; 2],
) -> io::Result<()> {
    let mut plan = [9usize; 2];
    let reply = Reply::from(book.price(multipliers, &mut plan));
    report(rt, call, reply, Ok(Answer::Amount(amount)))?;
    report_plan(rt, plan, expected)
}

/// Closes the working case, or is refused.
fn close<B: Bank>(
    rt: &impl Print,
    book: &mut Casebook<B>,
    call: &str,
    multipliers: &[i64],
    expected: Result<Answer, Refusal>,
) -> io::Result<()> {
    let reply = Reply::from(book.close(multipliers));
    report(rt, call, reply, expected)
}

/// Strikes arcs from the working case.
fn strike<B: Bank>(
    rt: &impl Print,
    book: &mut Casebook<B>,
    call: &str,
    multipliers: &[i64],
    expected: usize,
) -> io::Result<()> {
    let reply = Reply::from(book.strike(multipliers));
    report(rt, call, reply, Ok(Answer::Number(expected)))
}

/// Offers a plan of two arcs.
fn offer<B: Bank>(
    rt: &impl Print,
    book: &mut Casebook<B>,
    call: &str,
    arcs: [usize; 2],
    expected: Result<Answer, Refusal>,
) -> io::Result<()> {
    let reply = Reply::from(book.offer(&arcs));
    report(rt, call, reply, expected)
}

/// Prints the verdict.
fn verdict<B: Bank>(rt: &impl Print, book: &Casebook<B>, expected: Verdict) -> io::Result<()> {
    let reply = Reply::from(book.verdict());
    report(rt, "verdict", reply, Ok(Answer::Said(expected)))
}

/// Claim 12 does not close without multipliers; it does with one, and the offer of a plan of 12 minutes makes it best.
fn judge<B: Bank>(rt: &impl Print, book: &mut Casebook<B>) -> io::Result<()> {
    claim(rt, book, "claim 12", 12)?;
    price(rt, book, "price", &NONE, 7000, [0, 2])?;
    close(rt, book, "close", &NONE, Err(Refusal::NotClosed(7000)))?;
    close(
        rt,
        book,
        "close, 5000 for rule 0",
        &RULE_0,
        Ok(Answer::Number(0)),
    )?;
    offer(rt, book, "offer 1 2", [1, 2], Ok(Answer::Number(12)))?;
    verdict(rt, book, Verdict::Best)
}

/// With 5,000 for rule 0 the least amount is 12,000, of a plan that is not lawful. Claim 12 closes by it, claim 13 does not.
fn try_prices<B: Bank>(rt: &impl Print, book: &mut Casebook<B>) -> io::Result<()> {
    claim(rt, book, "claim 12", 12)?;
    price(rt, book, "price, 5000 for rule 0", &RULE_0, 12_000, [0, 2])?;
    offer(rt, book, "offer 0 2", [0, 2], Err(Refusal::BreaksRule(0)))?;
    close(
        rt,
        book,
        "close, 5000 for rule 0",
        &RULE_0,
        Ok(Answer::Number(0)),
    )?;
    close(
        rt,
        book,
        "close, 5000 for rule 0",
        &RULE_0,
        Err(Refusal::NoCase),
    )?;
    claim(rt, book, "claim 13", 13)?;
    close(
        rt,
        book,
        "close, 5000 for rule 0",
        &RULE_0,
        Err(Refusal::NotClosed(12_000)),
    )
}

/// A strike removes arc 3 at claim 14, and nothing at claim 15; at claim 7 no plan is left.
fn try_strikes<B: Bank>(rt: &impl Print, book: &mut Casebook<B>) -> io::Result<()> {
    claim(rt, book, "claim 14", 14)?;
    strike(rt, book, "strike, 5000 for rule 0", &RULE_0, 1)?;
    claim(rt, book, "claim 15", 15)?;
    strike(rt, book, "strike, 5000 for rule 0", &RULE_0, 0)?;
    claim(rt, book, "claim 7", 7)?;
    let trimmed = Reply::from(book.trim());
    report(rt, "trim", trimmed, Ok(Answer::Number(0)))?;
    let mut plan = [9usize; 2];
    let sampled = Reply::from(book.sample(&mut plan));
    report(rt, "sample", sampled, Ok(Answer::Found))?;
    report_plan(rt, plan, [0, 2])?;
    strike(rt, book, "strike", &NONE, 4)?;
    let emptied = Reply::from(book.sample(&mut plan));
    report(rt, "sample", emptied, Ok(Answer::NoPlan))
}

/// An exactly rule takes a multiplier below 0, an at most rule does not.
fn try_signs<B: Bank>(rt: &impl Print, book: &mut Casebook<B>) -> io::Result<()> {
    claim(rt, book, "claim 12", 12)?;
    price(
        rt,
        book,
        "price, -1 for rule 0",
        &RULE_0_BELOW,
        6999,
        [0, 2],
    )?;
    let mut plan = [9usize; 2];
    let refused = Reply::from(book.price(&RULE_2_BELOW, &mut plan));
    report(
        rt,
        "price, -1 for rule 2",
        refused,
        Err(Refusal::MultiplierRange(2)),
    )?;
    report_plan(rt, plan, [9, 9])
}

/// A split has an arc on either side of its set, or is refused. Each side is closed on its own.
fn try_splits<B: Bank>(rt: &impl Print, book: &mut Casebook<B>) -> io::Result<()> {
    let all = Reply::from(book.split(1, set_of(&[1, 2])));
    report(
        rt,
        "split at place 1 by {1, 2}",
        all,
        Err(Refusal::OneSided),
    )?;
    let one = Reply::from(book.split(1, set_of(&[1])));
    report(rt, "split at place 1 by {1}", one, Ok(Answer::Number(2)))?;
    verdict(rt, book, Verdict::Open)?;
    close(
        rt,
        book,
        "close, 5000 for rule 0",
        &RULE_0,
        Ok(Answer::Number(1)),
    )?;
    close(rt, book, "close", &NONE, Ok(Answer::Number(0)))?;
    verdict(rt, book, Verdict::Best)
}

/// All edges on one casebook; each claim begins with every arc again, and the plan held stays.
fn try_edges<B: Bank>(rt: &impl Print, book: &mut Casebook<B>) -> io::Result<()> {
    try_prices(rt, book)?;
    try_strikes(rt, book)?;
    try_signs(rt, book)?;
    try_splits(rt, book)
}

fn main(rt: HostRuntime) -> io::Result<()> {
    let draft = drafted(&rt)?;
    let once = Once::new(set_of(&[1, 2]));
    report_rules(&rt, "once {1, 2}", &once, 2)?;
    let pairs = [Precedence {
        earlier: 2,
        later: 1,
    }];
    let order = Order::new(&pairs);
    report_rules(&rt, "order 2 before 1", &order, 1)?;
    let budget = Budget::new(0, &[]);
    let chart = sealed(&rt, draft)?;
    let mut book = Casebook::open(chart, Pair::new(once, Pair::new(order, budget)));
    judge(&rt, &mut book)?;
    try_edges(&rt, &mut book)?;
    println!(rt;
        "A claim was judged best, and all nine calls were tried at their edges on the same chart; each reply was compared with the one expected."
    )
}
