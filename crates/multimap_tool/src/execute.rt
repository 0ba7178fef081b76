//! From the bytes of a reader to the bytes of a writer.
ghost use Rattle.std.specs.Prelude.{◌≡◌, ◌≢◌, ℕ, ℤ, List, nat_eq, IfOk, OnOk, IfErr};
ghost use Rattle.std.specs.Io.KnownBytes.{Appends};
ghost use Rattle.ordered_multimap.specs.Lists.{Lists, empty_lists};
ghost use Rattle.multimap_tool.specs.Runs.{IsRun};
ghost use Rattle.multimap_tool.specs.Texts.{text_of};
ghost use Rattle.multimap_tool.specs.Answers.{IsAnsweredBy, keeps_at_least};
ghost use Rattle.multimap_tool.specs.Execute.{ReadsAll, IsAnswered, IsFaultOf, FaultTells};

use crate::commands::Command;
use crate::faults::ToolFault;
use crate::format::format_replies;
use crate::parse::parse_commands;
use crate::replies::Reply;
use crate::run::run;
use ordered_multimap::ListOrderedMultimap;
use std::alloc::{AllocError, Allocator, Global};
use std::io::{Read, Write};

/// How many bytes one read asks for.
const PIECE: usize = 32768;

/// Reads commands, runs them on an empty map, and writes their replies.
///
/// The input is read to its end before a line is looked at, and all replies are complete before the
/// first byte is written. So nothing is written before a fault other than [`ToolFault::Write`].
/// JSON values are allocated from `memory`, and all else from `alloc`. `retain V` keeps the pairs
/// whose value is V or more.
///
/// # Errors
///
/// - [`ToolFault::BadLine`] with the number of the first line that is no command, counted from 1.
/// - [`ToolFault::Read`] if a read fails, be it only interrupted, or if the input doesn't end
///   within 4294967295 reads.
/// - [`ToolFault::Write`] if a write or the flush fails, or if a write takes no bytes.
/// - [`ToolFault::OutOfMemory`] if memory allocation fails for input, commands or replies. A
///   command that runs out of memory itself has the reply `no memory`.
///
/// # Complexity
///
/// *O*(*b*) for *b* bytes of input and output, and what the map's calls cost.
///
/// # Examples
///
/// ```
/// use multimap_tool::execute::execute;
/// use multimap_tool::faults::ToolFault;
///
/// let alloc = rt.alloc();
/// let mut output = Vec::new(alloc);
/// let mut input: &[u8] = b"append 1 10\nappend 1 20\nall 1\n";
/// assert_eq!(rt; execute(alloc, alloc, &mut input, &mut output), Ok(()));
/// assert_eq!(rt; output.as_slice(), b"new\nmore\n10 20\n".as_slice());
///
/// let mut input: &[u8] = b"append 1\n";
/// assert_eq!(rt; execute(alloc, alloc, &mut input, &mut output), Err(ToolFault::BadLine(1)));
/// ```
pub fn execute<A: Allocator + Copy, R: Read, W: Write>(
    alloc: A,
    memory: Global,
    input: &mut R,
    output: &mut W,
) -> Result<(), ToolFault>
    ensures ok { OnOk result (IsAnswered A (R.remaining input.old) (R.remaining input.new)
        (W.contents output.old) (W.contents output.new)) }
    ensures fault { IfErr result (FaultTells A (R.remaining input.old) (R.remaining input.new)) }
    ensures unwritten { IfErr result (λ fault. fault ≢ ToolFault.Write → output.new ≡ output.old) }
{
    let bytes = read_all(alloc, input)?;
    match answer(alloc, memory, &bytes) {
        Ok(text) => write_text(output, &text),
        Err(fault) => Err(fault),
    }
}

/// Reads all there is.
fn read_all<A: Allocator, R: Read>(alloc: A, input: &mut R) -> Result<Vec<u8, A>, ToolFault>
    ensures ok { IfOk result (λ bytes.
        ReadsAll (R.remaining input.old) (R.remaining input.new) bytes.items) }
    ensures fault { IfErr result (FaultTells A (R.remaining input.old) (R.remaining input.new)) }
    ensures no_write { result ≢ Err ToolFault.Write }
{
    let mut bytes = Vec::new(alloc);
    let mut piece = [0u8; PIECE];
    for _ in 0..u32::MAX {
        match input.read(&mut piece) {
            Ok(0) => return Ok(bytes),
            Ok(count) => bytes.extend_from_slice(&piece[..count])?,
            Err(_) => return Err(ToolFault::Read),
        }
    }
    Err(ToolFault::Read)
}

/// The text of the replies to the commands that the bytes spell.
fn answer<A: Allocator + Copy>(
    alloc: A,
    memory: Global,
    bytes: &[u8],
) -> Result<Vec<u8, A>, ToolFault>
    ensures ok { IfOk result (λ text. IsAnsweredBy A bytes.now text.items) }
    ensures fault { IfErr result (IsFaultOf A bytes.now) }
{
    let commands = parse_commands(alloc, bytes)?;
    Ok(answer_commands(alloc, memory, &commands)?)
}

/// The text of the replies to the commands, run on an empty map.
fn answer_commands<A: Allocator + Copy>(
    alloc: A,
    memory: Global,
    commands: &[Command<u32, i64, A>],
) -> Result<Vec<u8, A>, AllocError>
    ensures { IfOk result (λ text. (replies : List (Reply ℕ ℤ A)) × (last : Lists ℕ ℤ)
        × IsRun keeps_at_least nat_eq commands.now empty_lists replies last
        × (text.items ≡ text_of replies)) }
{
    let replies = run_on_empty(alloc, memory, commands)?;
    format_replies(alloc, &replies)
}

/// The replies to the commands, run on an empty map.
fn run_on_empty<A: Allocator + Copy>(
    alloc: A,
    memory: Global,
    commands: &[Command<u32, i64, A>],
) -> Result<Vec<Reply<u32, i64, A>, A>, AllocError>
    ensures { IfOk result (λ replies. (last : Lists ℕ ℤ)
        × IsRun keeps_at_least nat_eq commands.now empty_lists replies.items last) }
{
    let mut map = ListOrderedMultimap::new(alloc);
    run(
        alloc,
        memory,
        &mut map,
        commands,
        |least, _key, value| *value >= least,
    )
}

/// Writes the text, and hands on what the writer holds back.
fn write_text<W: Write>(output: &mut W, text: &[u8]) -> Result<(), ToolFault>
    ensures ok { OnOk result (Appends (W.contents output.old) (W.contents output.new) text.now) }
    ensures fault { IfErr result (λ fault. fault ≡ ToolFault.Write) }
{
    match output.write_all(text) {
        Ok(()) => {}
        Err(_) => return Err(ToolFault::Write),
    }
    match output.flush() {
        Ok(()) => Ok(()),
        Err(_) => Err(ToolFault::Write),
    }
}
