//! The fifth bank on a chart of two places, with route 1 or route 2 at each: route 1 is not to be tested before place 2.
use crate::not_before::NotBefore;
use crate::settle::settled;
use casebooks::casebook::Casebook;
use charts::chart::{Chart, Draft};
use rules::bank::Bank;
use std::test::Fail;
use terms::arc::NewArc;
use terms::refusal::Refusal;
use terms::verdict::Verdict;

const BANK: NotBefore = NotBefore { route: 1, place: 2 };

/// An arc from node 0 to node 0. The samples have such a helper too: each is a text that is read by itself.
fn straight(place: u64, route: u64, minutes: u64) -> NewArc {
    NewArc {
        place,
        start: 0,
        end: 0,
        route,
        minutes,
    }
}

fn drafted() -> Result<Chart, Refusal> {
    let mut draft = Draft::new();
    draft.places(2)?;
    draft.arc(straight(1, 1, 4))?;
    draft.arc(straight(1, 2, 9))?;
    draft.arc(straight(2, 1, 3))?;
    draft.arc(straight(2, 2, 10))?;
    Ok(draft.seal())
}

fn chart() -> Result<Chart, Fail> {
    drafted().map_err(|_| Fail::new("the chart was refused"))
}

/// The number and the value of a refusal, if there is one.
fn refused<T: Drop>(res: Result<T, Refusal>) -> Option<(u8, i64)> {
    res.err().map(Refusal::number)
}

#[test]
fn weighs_before_the_place(rt: HostRuntime) {
    assert_eq!(rt; BANK.count(), 1);
    assert_eq!(rt; BANK.weight(0, 1, 1), Some(1));
    assert_eq!(rt; BANK.weight(0, 2, 1), Some(0));
    assert_eq!(rt; BANK.weight(0, 1, 2), Some(0));
    assert_eq!(rt; BANK.weight(0, 33, 1), None);
    assert_eq!(rt; BANK.weight(1, 1, 1), None);
}

#[test]
fn proves_a_claim(rt: HostRuntime) -> Result<(), Fail> {
    let held = settled(chart()?, BANK, 12, &[5000]);
    assert_eq!(rt; held, Verdict::Proved, "claim 12 closes by 5,000");
    let open = settled(chart()?, BANK, 13, &[5000]);
    assert_eq!(rt; open, Verdict::Open, "claim 13 does not");
    Ok(())
}

#[test]
fn judges_offers(rt: HostRuntime) -> Result<(), Fail> {
    let mut book = Casebook::open(chart()?, BANK);
    assert_eq!(rt; refused(book.claim(12)), None);
    assert_eq!(rt; refused(book.close(&[])), Some((12, 0)));
    assert_eq!(rt; refused(book.close(&[-1])), Some((13, 0)));
    assert_eq!(rt; refused(book.close(&[5000])), None);
    assert_eq!(rt; refused(book.offer(&[0, 2])), Some((21, 0)));
    assert_eq!(rt; refused(book.offer(&[1, 2])), None);
    assert_eq!(rt; book.verdict(), Verdict::Best);
    Ok(())
}
