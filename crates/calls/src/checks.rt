// The groups of checks that the calls of a run share, in document 01's order.
#![tactic(auto, unfolding(star::specs::Checks::refuse, crate::specs::Checks::held_short_verdict, crate::specs::Checks::agreement_verdict, crate::specs::Checks::count_verdict))]

ghost use Rattle.std.specs.Prelude.{◌≡◌, ◌≤◌, length};
ghost use Rattle.books.specs.Rooms.{Tables};
ghost use Rattle.calls.specs.Held.{held};
ghost use Rattle.calls.specs.Checks.{held_short_verdict, agreement_verdict, count_verdict};

use crate::record::Run;
use books::agreement::Books;
use star::refusals::Refusal;

// Any of a run's four tables too short (5).
pub fn held_short(n: usize, books: &Books) -> Result<(), Refusal>
    requires { n ≤ 64 }
    ensures { result ≡ held_short_verdict n (length books.now.waiting.now) (length books.now.posted.now) (length books.now.sent.now) (length books.now.dropped.now) }
{
    let cells = n * n;
    if books.waiting.len() < cells
        || books.posted.len() < cells
        || books.sent.len() < cells
        || books.dropped.len() < cells
    {
        return Err(Refusal::TableShort);
    }
    Ok(())
}

// The books of each pair (8).
pub fn agreement(old: Run, books: &Books) -> Result<(), Refusal>
    requires { Tables old.nodes books.now.waiting.now books.now.posted.now books.now.sent.now books.now.dropped.now }
    ensures { result ≡ agreement_verdict (held old books.now.waiting.now books.now.posted.now books.now.sent.now books.now.dropped.now) }
{
    match books.first_disagreeing(old.nodes as usize, old.limit, old.posts) {
        Some(cell) => Err(Refusal::BooksDisagree { cell: cell as u32 }),
        None => Ok(()),
    }
}

// How often this kind of call was accepted (9).
pub fn count_left(accepted: u32) -> Result<(), Refusal>
    ensures { result ≡ count_verdict accepted }
{
    if accepted >= 1000000 {
        return Err(Refusal::CallsSpent);
    }
    Ok(())
}
