//! What is printed.
use crate::options::{Options, Order};
use crate::summaries::{Report, Summaries, Values};
use crate::summary::{NOTHING, Summary};
use program_parts::{Fault, bad};
use std::alloc::{AllocError, Global};
use std::cmp::Reverse;
use std::io;
use std::io::Write;

/// The report on all groups and, behind it, the one on those whose sum isn't below the bound.
pub fn report_of(
    alloc: Global,
    report: &mut Report<'_>,
    options: &Options,
    bound: Option<i128>,
) -> Result<Vec<u8>, Fault> {
    let mut text = Vec::new(alloc);
    sort(&mut report.summaries, options.order)?;
    add_report(report, options, &mut text)?;
    if let Some(bound) = bound {
        report
            .summaries
            .retain(|_group, summary| summary.sum >= bound);
        text.push(b'\n')?;
        add_report(report, options, &mut text)?;
    }
    Ok(text)
}

/// Puts the groups in this order.
fn sort(summaries: &mut Summaries<&[u8]>, order: Order) -> Result<(), AllocError> {
    match order {
        Order::First => Ok(()),
        Order::Name => summaries.sort_keys(),
        Order::Total => summaries.sort_keys_by_cached_key(|_group, mut own| {
            Reverse(own.next().map_or(0, |summary| summary.sum))
        }),
    }
}

/// Adds the lines of each group, and the line of totals.
fn add_report(report: &Report<'_>, options: &Options, text: &mut Vec<u8>) -> Result<(), Fault> {
    if options.has_columns {
        return Ok(add_table(&report.summaries, options.counts, text)?);
    }
    let mut total = Some(NOTHING);
    for (group, own) in report.summaries.pairs() {
        for summary in own {
            add_group(report, options, group, *summary, text)?;
            total = total.and_then(|total| total.join(*summary));
        }
    }
    match total {
        Some(total) => Ok(add_total(report.summaries.keys_len(), total, options.counts, text)?),
        None => Err(Fault::input(bad("the sum of all groups doesn't fit 128 bits"))),
    }
}

fn add_group(
    report: &Report<'_>,
    options: &Options,
    group: &[u8],
    summary: Summary,
    text: &mut Vec<u8>,
) -> io::Result<()> {
    text.extend_from_slice(group)?;
    add_summary(": ", summary, options.counts, text)?;
    if options.lists {
        add_values(&report.values, group, text)?;
    }
    Ok(())
}

/// Adds a line with the names of the columns, and one for each group.
fn add_table(summaries: &Summaries<&[u8]>, counts: bool, text: &mut Vec<u8>) -> io::Result<()> {
    let head = if counts {
        "group\tcount\n"
    } else {
        "group\tcount\tsum\tleast\tgreatest\n"
    };
    text.extend_from_slice(head.as_bytes())?;
    for (group, own) in summaries.pairs() {
        for summary in own {
            add_escaped(group, text)?;
            add_columns(*summary, counts, text)?;
        }
    }
    Ok(())
}

/// Adds the group as a column has it: `\t`, `\r` and `\\` stand for a tab, a carriage return and a
/// backslash.
fn add_escaped(group: &[u8], text: &mut Vec<u8>) -> io::Result<()> {
    for byte in group {
        match *byte {
            b'\t' => text.extend_from_slice(b"\\t")?,
            b'\r' => text.extend_from_slice(b"\\r")?,
            b'\\' => text.extend_from_slice(b"\\\\")?,
            byte => text.push(byte)?,
        }
    }
    Ok(())
}

fn add_columns(summary: Summary, counts: bool, text: &mut Vec<u8>) -> io::Result<()> {
    write!(text, "\t{}", summary.count)?;
    if !counts {
        let (least, greatest) = (summary.least, summary.greatest);
        write!(text, "\t{}\t{least}\t{greatest}", summary.sum)?;
    }
    text.push(b'\n')?;
    Ok(())
}

/// Adds each value of the group, in order, on a line of its own.
fn add_values(values: &Values<&[u8]>, group: &[u8], text: &mut Vec<u8>) -> io::Result<()> {
    for value in values.get_all(group) {
        writeln!(text, "  {value}")?;
    }
    Ok(())
}

fn add_total(groups: usize, total: Summary, counts: bool, text: &mut Vec<u8>) -> io::Result<()> {
    write!(text, "total: groups {groups}")?;
    if groups == 0 {
        text.push(b'\n')?;
        return Ok(());
    }
    add_summary(", ", total, counts, text)
}

fn add_summary(before: &str, summary: Summary, counts: bool, text: &mut Vec<u8>) -> io::Result<()> {
    if counts {
        writeln!(text, "{before}count {}", summary.count)
    } else {
        writeln!(text, "{before}{summary}")
    }
}
