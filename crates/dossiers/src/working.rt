//! A dossier after its seal: each line is a call of a casebook.
ghost use Rattle.std.specs.Prelude.{◌≡◌, ℕ, List, ℤ};
ghost use Rattle.casebooks.specs.Views.{problem_in, model_in};
ghost use Rattle.lines.specs.Cursors.{HoldsNumbers, HoldsPairs};
ghost use Rattle.lines.specs.Forms.{Form as Said, Price, Sample, Strike, Split, Close, Offer};
ghost use Rattle.lines.specs.Readings.{Means};
ghost use Rattle.unsealed.specs.Replies.{Replies};
ghost use Rattle.dossiers.specs.Tolds.{replied_by};
ghost use Rattle.dossiers.specs.Works.{on_work};
ghost use Rattle.dossiers.specs.Dossiers.{on_stage, stage_of, unread, Leads, Judged};

use crate::answer::{Answer, PlanArcs};
use crate::multipliers::named;
use crate::offers::offered;
use casebooks::casebook::Casebook;
use lines::form::{Form, NumberItems, PairItems};
use rules::bank::Bank;
use terms::refusal::Refusal;
use unsealed::items::route_set;

/// The least amount with the multipliers that a line names.
fn price<B: Bank>(book: &Casebook<B>, items: PairItems) -> Result<Answer, Refusal>
    ensures reply { (xs : List (ℕ × ℤ)) → HoldsPairs xs items.entry → replied_by result ≡ (on_work (problem_in B.Bank book.now) (model_in book.now) (Price xs)).answer }
    ensures left { (xs : List (ℕ × ℤ)) → HoldsPairs xs items.entry → model_in book.now ≡ (on_work (problem_in B.Bank book.now) (model_in book.now) (Price xs)).left }
{
    let multipliers = named(items, book.rule_count())?;
    let mut plan = [0; 32];
    let answer = book.price(&multipliers, &mut plan);
    answer.map(|amount| amount.map_or(Answer::NoPlan, Answer::Amount))
}

/// The first plan that stands.
fn sample<B: Bank>(book: &Casebook<B>) -> Result<Answer, Refusal>
    ensures reply { replied_by result ≡ (on_work (problem_in B.Bank book.now) (model_in book.now) Sample).answer }
    ensures left { model_in book.now ≡ (on_work (problem_in B.Bank book.now) (model_in book.now) Sample).left }
{
    let mut at = [0; 32];
    if book.sample(&mut at)? {
        let places = book.places();
        Ok(Answer::Plan(PlanArcs { at, places }))
    } else {
        Ok(Answer::NoPlan)
    }
}

/// Strikes with the multipliers that a line names.
fn strike<B: Bank>(book: &mut Casebook<B>, items: PairItems) -> Result<Answer, Refusal>
    ensures reply { (xs : List (ℕ × ℤ)) → HoldsPairs xs items.entry → replied_by result ≡ (on_work (problem_in B.Bank book.old) (model_in book.old) (Strike xs)).answer }
    ensures left { (xs : List (ℕ × ℤ)) → HoldsPairs xs items.entry → model_in book.new ≡ (on_work (problem_in B.Bank book.old) (model_in book.old) (Strike xs)).left }
    ensures same { problem_in B.Bank book.new ≡ problem_in B.Bank book.old }
{
    let multipliers = named(items, book.rule_count())?;
    book.strike(&multipliers).map(Answer::Count)
}

/// Closes with the multipliers that a line names. Its one call is another than that of `strike`: a function over the two is no plainer.
fn close<B: Bank>(book: &mut Casebook<B>, items: PairItems) -> Result<Answer, Refusal>
    ensures reply { (xs : List (ℕ × ℤ)) → HoldsPairs xs items.entry → replied_by result ≡ (on_work (problem_in B.Bank book.old) (model_in book.old) (Close xs)).answer }
    ensures left { (xs : List (ℕ × ℤ)) → HoldsPairs xs items.entry → model_in book.new ≡ (on_work (problem_in B.Bank book.old) (model_in book.old) (Close xs)).left }
    ensures same { problem_in B.Bank book.new ≡ problem_in B.Bank book.old }
{
    let multipliers = named(items, book.rule_count())?;
    book.close(&multipliers).map(Answer::Count)
}

/// Splits at a place by the routes of a line.
fn split<B: Bank>(book: &mut Casebook<B>, place: u64, items: NumberItems) -> Result<Answer, Refusal>
    ensures reply { (qs : List ℕ) → HoldsNumbers qs items.entry → replied_by result ≡ (on_work (problem_in B.Bank book.old) (model_in book.old) (Split place qs)).answer }
    ensures left { (qs : List ℕ) → HoldsNumbers qs items.entry → model_in book.new ≡ (on_work (problem_in B.Bank book.old) (model_in book.old) (Split place qs)).left }
    ensures same { problem_in B.Bank book.new ≡ problem_in B.Bank book.old }
{
    let routes = route_set(items)?;
    book.split(place, routes).map(Answer::Count)
}

/// Offers the arcs of a line. Of more arcs than any chart has places only so many are looked at that the offer is refused for
/// its length.
fn offer<B: Bank>(book: &mut Casebook<B>, items: NumberItems) -> Result<Answer, Refusal>
    ensures reply { (arcs : List ℕ) → HoldsNumbers arcs items.entry → replied_by result ≡ (on_work (problem_in B.Bank book.old) (model_in book.old) (Offer arcs)).answer }
    ensures left { (arcs : List ℕ) → HoldsNumbers arcs items.entry → model_in book.new ≡ (on_work (problem_in B.Bank book.old) (model_in book.old) (Offer arcs)).left }
    ensures same { problem_in B.Bank book.new ≡ problem_in B.Bank book.old }
{
    let arcs = offered(items);
    // There is no `From` of `u32` for `usize`.
    book.offer(&arcs).map(|cost| Answer::Count(cost as usize))
}

/// What a form is answered.
pub fn take<B: Bank>(book: &mut Casebook<B>, form: Form) -> Result<Answer, Refusal>
    ensures reply { (f : Said) → Means form.entry f → replied_by result ≡ (on_work (problem_in B.Bank book.old) (model_in book.old) f).answer }
    ensures left { (f : Said) → Means form.entry f → model_in book.new ≡ (on_work (problem_in B.Bank book.old) (model_in book.old) f).left }
    ensures same { problem_in B.Bank book.new ≡ problem_in B.Bank book.old }
{
    match form {
        Form::Claim(minutes) => book.claim(minutes).map(Answer::Count),
        Form::Price(items) => price(book, items),
        Form::Sample => sample(book),
        Form::Strike(items) => strike(book, items),
        Form::Trim => book.trim().map(Answer::Count),
        Form::Split(place, items) => split(book, place, items),
        Form::Close(items) => close(book, items),
        Form::Offer(items) => offer(book, items),
        Form::Verdict => Ok(Answer::Word(book.verdict())),
        Form::Casebook
        | Form::Places(_)
        | Form::Arc(_)
        | Form::Once(_)
        | Form::Order(_, _)
        | Form::Budget(_, _)
        | Form::Seal => Err(Refusal::NotHere),
    }
}

/// What a line is answered. Whatever lines came before, from the first of the dossier on, the casebook's verdict means what is
/// said of every verdict, and that is what the line (verdict) is told.
pub fn line<B: Bank>(book: &mut Casebook<B>, line: &[u8]) -> Result<Answer, Refusal>
    ensures replies { Replies (on_stage (stage_of B.Bank book.old)) (stage_of B.Bank book.old) line.now (replied_by result) (stage_of B.Bank book.new) }
    ensures theorem { (ls : List (List ℕ)) → Leads ls unread (stage_of B.Bank book.old) → Judged (problem_in B.Bank book.old) (model_in book.old) }
{
    let form = lines::read(line)?;
    take(book, form)
}
