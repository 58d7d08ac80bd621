//! What is claimed of all pages together.
ghost use Rattle.statement.specs.Claims.{PagesShowAll};

/// Of every journal 64 pages show all postings of an account, each once and in its order. It does
/// nothing: the claim is its contract.
pub fn pages_show_all()
    ensures all { PagesShowAll }
{}
