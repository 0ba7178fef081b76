//! Runs the commands of standard input on an insertion-ordered multimap, and writes their replies
//! to standard output. Arguments are ignored.
#![tactic(auto)]

use multimap_tool::execute::execute;
use std::io;
use std::process::ExitCode;

fn main(rt: HostRuntime) -> ExitCode {
    let alloc = rt.alloc();
    match execute(alloc, alloc, &mut rt.reader(), &mut io::writer(&rt)) {
        Ok(()) => ExitCode::SUCCESS,
        Err(fault) => {
            let _ = eprintln!(rt; "{fault}");
            ExitCode::from(fault.status())
        }
    }
}
