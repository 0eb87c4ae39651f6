//! What a repair comes to.
ghost use Rattle.std.specs.Prelude.{◌≡◌, length};
ghost use Rattle.rr_trace.specs.View.{plain_table};
ghost use Rattle.rr_repair.specs.Views.{changes_of};

use rr_choice::SiteList;
use rr_endings::Found;
use rr_search::Answer;
use rr_trace::Table;

/// The answer of a repair, with what was counted on the way.
#[derive(Drop)]
pub struct Counted<'b> {
    /// What is to be printed, reported and written.
    pub found: Found<'b>,
    /// The rows of the table.
    pub rows: u64,
    /// The sites of the design that can be changed in its file.
    pub sites: u64,
    /// Where the status is 0, the least number of changes with which the design matches.
    pub changes: u32,
}

/// The number of changes of an answer, 0 where it makes none.
pub(crate) fn changes_of(answer: &Answer) -> u32
    ensures { result ≡ changes_of answer.now }
{
    match answer {
        Answer::Repair { k, .. } => *k,
        Answer::Unchanged | Answer::NoRepair { .. } | Answer::Spent { .. } => 0,
    }
}

/// What is to be done for an answer of the search over so many sites and rows, with these counts.
pub(crate) fn with_counts<'b>(
    found: Found<'b>,
    rows: &Table,
    list: &SiteList<'_>,
    answer: &Answer,
) -> Counted<'b>
    ensures found { result.found ≡ found.entry }
    ensures rows { result.rows ≡ length (plain_table rows.now).inputs }
    ensures sites { result.sites ≡ length list.now }
    ensures changes { result.changes ≡ changes_of answer.now }
{
    Counted {
        found,
        rows: rows.inputs.len() as u64,
        sites: list.sites().len() as u64,
        changes: changes_of(answer),
    }
}
