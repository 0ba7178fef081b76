//! Reports the values of groups, as a log of requests by page or of sales by article has them.
//!
//! Each line of the input is a group and a value, `GROUP VALUE`: the last word is the value, a whole
//! number of 64 bits with a sign, and all before it is the group. White space stands between and
//! around them, and blank lines are ignored. Lines are UTF-8. Standard output gets a line for each
//! group, in the order in which they first occur, with how many values it has, their sum, the least
//! and the greatest of them, and a line of totals behind these. Sums have 128 bits.
//!
//! The input is the file that the first word names, or standard input.
//!
//! | Option | What it does |
//! |---|---|
//! | `--count` | each line is a group, without a value, and counts one |
//! | `--bound N` | a second report without the groups whose sum is below N |
//! | `--sort name`, `--sort total` | the groups by their names, or the greatest sum first |
//! | `--list` | behind each group its values in order, a line for each |
//! | `--tsv` | a line of names and a line for each group, with a tab between two columns |
//! | `-d CHAR` | fields stand between characters like this one, and not between words; `\t` is a tab |
//! | `--key N` | the group is the field of this number, from 1 |
//! | `--value N` | with `--key`: the value is the field of this number, and not the last one |
//! | `--skip` | passes bad lines over, and says on standard error how many there were |
//!
//! Without any argument a first line `bound N` is such a bound. On any other line, and where there is
//! an argument, `bound` is a group like others.
//!
//! The exit statuses are those of `program_parts`. The map has the default hash builder, whose seed is
//! fixed: for groups that somebody hostile names it may become slow.
#![tactic(auto)]

mod options;
mod read;
mod report;
mod summaries;
mod summary;

use crate::options::Options;
use crate::read::read_lines;
use crate::report::report_of;
use crate::summaries::Report;
use program_parts::{Arguments, Fault, OneLine, Program, read_input, run_program};
use std::process::ExitCode;

const PROGRAM: Program = Program {
    name: "group_report",
    help: "\
usage: group_report [OPTION]... [FILE]

Each line of FILE, or of standard input, is GROUP VALUE: the last word is a whole
number, and all before it the group. Prints how many values each group has, their
sum, the least and the greatest of them, and totals.

  --count             each line is a group without a value, and counts one
  -d CHAR             CHAR separates fields, and not white space; \\t is a tab
  --key N             the group is field N
  --value N           with --key: the value is field N, and not the last one
  --skip              passes bad lines over, and says how many
  --bound N           reports again, without the groups whose sum is below N
  --sort name|total   the groups by name, or the greatest sum first
  --list              prints the values of each group behind it
  --tsv               prints columns, with a tab between two and a line of names
  -h, --help          prints this
  --version           prints the version

Example: group_report -d , --key 2 --value 5 --sort total sales.csv
",
    flags: &["--count", "--list", "--skip", "--tsv"],
    valued: &["--bound", "--key", "--sort", "--value", "-d"],
    text: None,
};

fn main(rt: HostRuntime) -> ExitCode {
    run_program(&rt, &PROGRAM, answer)
}

fn answer(rt: &HostRuntime, arguments: &Arguments<'_>) -> Result<Vec<u8>, Fault> {
    let options = Options::parse(rt.alloc(), arguments)?;
    let input = read_input(rt, &PROGRAM, arguments)?;
    let mut report = Report::new(rt.alloc());
    let read = read_lines(&mut report, &options, &input)?;
    let text = report_of(rt.alloc(), &mut report, &options, read.bound)?;
    if read.skipped > 0 {
        let source = OneLine(PROGRAM.source_of(arguments));
        // The report is there where standard error fails, too.
        let _ = eprintln!(rt;
            "{}: {source}: bad lines passed over: {}",
            PROGRAM.name, read.skipped
        );
    }
    Ok(text)
}
