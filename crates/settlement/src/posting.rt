//! Amounts posted as a call posts them.
ghost use Rattle.std.specs.Prelude.{◌≡◌, [], Ok, Err, MatchResult};
ghost use Rattle.ledger.specs.Rows.{posts};
ghost use Rattle.pool.specs.Day.{Moves, posts_of, postable};

use ledger::accounts::Ledger;
use ledger::row::post_row;
use refusals::Refusal;

/// Posts each amount that is not zero, in cents and for accounts 0 to 11, in rising order of
/// account, and answers how many there were. A refusal means that the ledger would not take them
/// all; then none is posted, and the ledger is the very same.
pub fn post_amounts<L: Ledger>(ledger: &mut L, amounts: &[i64; 12]) -> Result<usize, Refusal>
    ensures moved { MatchResult result
        (λ n. (postable (L.view ledger.old) amounts.now ≡ Ok tt)
        × ((n ≡ posts amounts.now)
        × Moves (L.view ledger.old) amounts.now (L.view ledger.new)))
        (λ f. (postable (L.view ledger.old) amounts.now ≡ Err f)
        × (L.view ledger.new ≡ L.view ledger.old)) }
    ensures took { L.took ledger.old (posts_of amounts.now result) ledger.new }
    ensures kept { posts_of amounts.now result ≡ [] → ledger.new ≡ ledger.old }
{
    Ok(post_row(ledger, amounts)?)
}
