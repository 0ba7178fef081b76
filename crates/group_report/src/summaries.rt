//! The summary of each group.
ghost use Rattle.std.specs.IoError.{error_kind};
ghost use Rattle.std.specs.Prelude.{◌≡◌, ◌⊎◌, ◌++◌, ◌∷◌, [], List, ℤ, IfErr, IfOk, OnOk};
ghost use Rattle.std.specs.declared.io.ErrorKind.TheVariants.{OutOfMemory};
ghost use Rattle.group_report.specs.Sums.{FitsOneMore, Summarizes, summary_in, summary_with};

use crate::summary::{NOTHING, Summary};
use ordered_multimap::ListOrderedMultimap;
use program_parts::bad;
use std::alloc::Global;
use std::hash::Hash;
use std::io;

/// One summary for each group, in the order in which groups first occur.
pub type Summaries<G> = ListOrderedMultimap<G, Summary>;

/// The values of each group, in order.
pub type Values<G> = ListOrderedMultimap<G, i64>;

/// What is known of the lines that were read.
#[derive(Drop)]
pub struct Report<'t> {
    pub summaries: Summaries<&'t [u8]>,
    /// The values, where they are to be listed.
    pub values: Values<&'t [u8]>,
}

impl<'t> Report<'t> {
    pub fn new(alloc: Global) -> Report<'t> {
        Report {
            summaries: ListOrderedMultimap::new(alloc),
            values: ListOrderedMultimap::new(alloc),
        }
    }
}

/// Adds a value to the summary of its group.
pub fn add_value<G: Eq + Hash + Copy + Drop>(
    summaries: &mut Summaries<G>,
    group: G,
    value: i64,
) -> io::Result<()>
    ensures added { OnOk result ((entries : List (G × ℤ))
        → Summarizes G.eq entries summaries.old.lists
        → Summarizes G.eq (entries ++ (group, value) ∷ []) summaries.new.lists) }
    ensures refused { IfErr result (λ error. (error_kind error ≡ OutOfMemory)
        ⊎ ¬ FitsOneMore (summary_in G.eq summaries.old.lists group) value) }
{
    match summaries.get_mut(&group) {
        Some(summary) => {
            *summary = with(*summary, value)?;
        }
        None => {
            summaries.append(group, with(NOTHING, value)?)?;
        }
    }
    Ok(())
}

fn with(summary: Summary, value: i64) -> io::Result<Summary>
    ensures with { IfOk result (λ all. all ≡ summary_with summary value) }
    ensures refused { IfErr result (λ _. ¬ FitsOneMore summary value) }
{
    match summary.with(value) {
        Some(all) => Ok(all),
        None => Err(bad("too many values")),
    }
}
