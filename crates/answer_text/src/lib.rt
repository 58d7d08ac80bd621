//! The text of what a day's calls answer, line by line.
// Kept: pieces pushed into a draft, since these lines cannot fail; a `Display` may answer an error,
// by its type.
#![tactic(auto)]

ghost use Rattle.std.specs.Prelude.{◌≡◌, ◌+◌, ◌≤◌, ◌++◌, length, decimal};
ghost use Rattle.text.specs.Drafts.{kept};
ghost use Rattle.answer_text.specs.Answers.{price_words, answer_words, refusal_words, reason_words, result_words, answered, refused_text, tally_text, journal_text, balance_text, sum_text};

use ledger::reason::Reason;
use pool::call::{Answer, Lodged};
use refusals::Refusal;
use text::draft::Draft;

fn push_figure(draft: &mut Draft, key: &[u8], n: u64)
    ensures after { draft.new ≡ kept (draft.old ++ (key.now ++ decimal n)) }
    ensures short { length (key.now ++ decimal n) ≤ length key.now + 20 }
{
    draft.push(key);
    draft.push_natural(n);
}

fn push_price(draft: &mut Draft, price: i64, facility: u32)
    ensures after { draft.new ≡ kept (draft.old ++ price_words price facility) }
    ensures short { length (price_words price facility) ≤ 100 }
{
    draft.push(b"price=");
    draft.push_signed(price);
    push_figure(draft, b" facility=", facility as u64);
}

fn push_answer(draft: &mut Draft, answer: Answer)
    ensures after { draft.new ≡ kept (draft.old ++ answer_words answer) }
    ensures short { length (answer_words answer) ≤ 100 }
{
    // Kept: one arm a kind of answer, each its own text.
    match answer {
        Answer::Number(facility) => push_figure(draft, b"facility=", facility as u64),
        Answer::Opened => draft.push(b"opened"),
        Answer::Lodging(Lodged::Same) => draft.push(b"same"),
        Answer::Lodging(Lodged::New) => draft.push(b"new"),
        Answer::Set => draft.push(b"set"),
        Answer::Price { price, facility } => push_price(draft, price, facility),
        Answer::Posts(posts) => push_figure(draft, b"posts=", posts as u64),
    }
}

fn push_reason(draft: &mut Draft, reason: Option<Reason>)
    ensures after { draft.new ≡ kept (draft.old ++ reason_words reason) }
    ensures short { length (reason_words reason) ≤ 28 }
{
    // Kept: where there is none an empty piece is pushed, which tells that the draft keeps what it
    // held.
    match reason {
        Some(reason) => push_figure(draft, b" reason=", reason.number() as u64),
        None => draft.push(b""),
    }
}

fn push_refusal(draft: &mut Draft, refusal: Refusal)
    ensures after { draft.new ≡ kept (draft.old ++ refusal_words refusal) }
    ensures short { length (refusal_words refusal) ≤ 100 }
{
    push_figure(draft, b"refused=", refusal.number() as u64);
    push_figure(draft, b" place=", refusal.place() as u64);
    push_reason(draft, refusal.reason());
}

fn push_result(draft: &mut Draft, res: Result<Answer, Refusal>)
    ensures after { draft.new ≡ kept (draft.old ++ result_words res) }
    ensures short { length (result_words res) ≤ 100 }
{
    match res {
        Ok(answer) => push_answer(draft, answer),
        Err(refusal) => push_refusal(draft, refusal),
    }
}

/// The line that answers the call on a line of the day file. `line` is that line's number, from 1.
pub fn answer_line(line: u64, res: Result<Answer, Refusal>) -> Draft
    ensures { result ≡ answered line res }
{
    let mut draft = Draft::new();
    draft.push_natural(line);
    draft.push(b": ");
    push_result(&mut draft, res);
    draft.push(b"\n");
    draft
}

/// The line that tells why a page of a statement, asked for on a line of the day file, is not
/// printed: by the number of the refusal and its place. `line` is the number of that line, from 1.
pub fn refused_line(line: u64, number: u32, place: usize) -> Draft
    ensures { result ≡ refused_text line number place }
{
    let mut draft = Draft::new();
    draft.push_natural(line);
    draft.push(b": ");
    push_figure(&mut draft, b"refused=", number as u64);
    push_figure(&mut draft, b" place=", place as u64);
    draft.push(b"\n");
    draft
}

/// The last line: how many calls there were, how many of them were taken, and how many refused.
pub fn tally_line(calls: u64, taken: u64, refused: u64) -> Draft
    ensures { result ≡ tally_text calls taken refused }
{
    let mut draft = Draft::new();
    push_figure(&mut draft, b"calls=", calls);
    push_figure(&mut draft, b" taken=", taken);
    push_figure(&mut draft, b" refused=", refused);
    draft.push(b"\n");
    draft
}

/// The line that tells a line of the journal: its number from 1, the account from 0, and what was
/// posted to it in cents.
pub fn journal_line(line: usize, account: u32, cents: i64) -> Draft
    ensures { result ≡ journal_text line account cents }
{
    let mut draft = Draft::new();
    push_figure(&mut draft, b"line=", line as u64);
    push_figure(&mut draft, b" account=", account as u64);
    draft.push(b" cents=");
    draft.push_signed(cents);
    draft.push(b"\n");
    draft
}

/// The line that tells an account, from 0, and its balance in cents.
pub fn balance_line(account: usize, cents: i64) -> Draft
    ensures { result ≡ balance_text account cents }
{
    let mut draft = Draft::new();
    push_figure(&mut draft, b"account=", account as u64);
    draft.push(b" balance=");
    draft.push_signed(cents);
    draft.push(b"\n");
    draft
}

/// The line that tells the sum of all balances, in cents.
pub fn sum_line(cents: i64) -> Draft
    ensures { result ≡ sum_text cents }
{
    let mut draft = Draft::new();
    draft.push(b"sum=");
    draft.push_signed(cents);
    draft.push(b"\n");
    draft
}
