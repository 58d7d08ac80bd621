//! The sheet of two stations settled and corrected over the account table: how many posts that
//! takes, or why it is refused.
ghost use Rattle.std.specs.Prelude.{◌≡◌, [], ◌∷◌, ◌++◌, OnOk, Some, replicate, pos};
ghost use Rattle.std.specs.Option.{option_map, option_and_then};
ghost use Rattle.std.specs.Result.{result_map_both};
ghost use Rattle.ledger.specs.Posting.{reason_number};
ghost use Rattle.ledgers.specs.Shown.{balances_of, below_of, limits_of};
ghost use Rattle.refusals.specs.Table.{refusal_number, refusal_place, refusal_reason};
ghost use Rattle.pool.specs.declared.call.Answer.TheVariants.{Posts};
ghost use Rattle.worked_figures.specs.Postings as postings;

use crate::answer::Answer;
use crate::cases::{Adjustment, Settling};
use crate::figure::Figure;
use crate::two_stations::{register, row_at};
use crate::worked::Worked;
use ledger::accounts::MOST;
use ledgers::limit::CreditLimit;
use ledgers::table::AccountTable;
use pool::call::Answer as Told;
use refusals::Refusal;
use settlement::adjusting::adjust;
use settlement::settling::settle;
use sheets::row::State;
use std::alloc::{AllocError, Global};

fn table_under(limit: u32) -> CreditLimit<AccountTable>
    ensures below { balances_of (below_of result) ≡ replicate 12 (pos 0) }
    ensures limits { limits_of result ≡ postings.limits limit }
{
    let mut limits = [MOST; 64];
    limits[3] = i64::from(limit);
    CreditLimit::new(AccountTable::new(), limits)
}

fn answered(posts: Result<usize, Refusal>) -> Result<Told, Refusal>
    ensures { result ≡ result_map_both Posts (λ f. f) posts }
{
    Ok(Told::Posts(posts?))
}

fn settled(limit: u32) -> Option<Result<Told, Refusal>>
    ensures { result ≡ Some (postings.settled limit) }
{
    let register = register()?;
    let mut rows = [row_at(State::Closed, 700_000)?];
    let posts = settle(&register, &mut rows, 1, &mut table_under(limit));
    Some(answered(posts))
}

fn corrected(to: u32) -> Option<Result<Told, Refusal>>
    ensures { result ≡ Some (postings.corrected to) }
{
    let register = register()?;
    let mut rows = [row_at(State::Settled, 700_000)?];
    let posts = adjust(
        &register,
        &mut rows,
        1,
        1,
        to,
        &mut table_under(4_294_967_295),
    );
    Some(answered(posts))
}

fn posts_of(answer: Option<Result<Told, Refusal>>) -> Option<u64>
    ensures { result ≡ option_and_then postings.posts_of answer }
{
    match answer {
        Some(Ok(Told::Posts(posts))) => Some(posts as u64),
        _ => None,
    }
}

fn refusal_in(answer: Option<Result<Told, Refusal>>) -> Option<Refusal>
    ensures { result ≡ option_and_then postings.refusal_in answer }
{
    match answer {
        Some(Err(refusal)) => Some(refusal),
        _ => None,
    }
}

fn number_in(refusal: Option<Refusal>) -> Option<u64>
    ensures { result ≡ option_map refusal_number refusal }
{
    Some(u64::from(refusal?.number()))
}

fn place_in(refusal: Option<Refusal>) -> Option<u64>
    ensures { result ≡ option_map refusal_place refusal }
{
    Some(refusal?.place() as u64)
}

fn reason_in(refusal: Option<Refusal>) -> Option<u64>
    ensures { result ≡ option_map reason_number (option_and_then refusal_reason refusal) }
{
    Some(u64::from(refusal?.reason()?.number()))
}

#[tactic(auto, unfolding(crate::specs::Postings::settle_figure))]
fn push_settled(
    heap: Global,
    figures: &mut Vec<Figure>,
    limit: u32,
    what: &str,
    expected: Option<u64>,
    computed: Option<u64>,
) -> Result<(), AllocError>
    ensures { OnOk result (figures.new.items ≡ figures.old.items
        ++ postings.settle_figure limit what.now expected computed ∷ []) }
{
    let what = format!(in heap; "settle with a credit limit of {limit} on account 3, {what}")?;
    let expected = Answer::natural(expected);
    figures.push(Figure::new(what, expected, Answer::natural(computed)))?;
    Ok(())
}

impl Worked for Settling {
    ghost use Rattle.worked_figures.specs.Postings.{settle_figures};

    ghost shows = { settle_figures };

    fn work(&self, heap: Global, figures: &mut Vec<Figure>) -> Result<(), AllocError> {
        let limit = self.limit;
        let answer = settled(limit);
        let posts = posts_of(answer);
        let refusal = refusal_in(answer);
        let number = number_in(refusal);
        let place = place_in(refusal);
        let reason = reason_in(refusal);
        push_settled(heap, figures, limit, "posts", self.posts, posts)?;
        push_settled(heap, figures, limit, "refusal", self.refusal, number)?;
        push_settled(heap, figures, limit, "place", self.place, place)?;
        push_settled(heap, figures, limit, "reason", self.reason, reason)?;
        Ok(())
    }
}

impl Worked for Adjustment {
    ghost use Rattle.worked_figures.specs.Postings.{adjustment_figures};

    ghost shows = { adjustment_figures };

    fn work(&self, heap: Global, figures: &mut Vec<Figure>) -> Result<(), AllocError> {
        let to = self.to;
        let what = format!(in heap; "correction of the settled sheet to {to}, posts")?;
        let expected = Answer::natural(self.posts);
        let computed = Answer::natural(posts_of(corrected(to)));
        figures.push(Figure::new(what, expected, computed))?;
        Ok(())
    }
}
