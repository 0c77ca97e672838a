//! What the program does, over any reader and writers.
ghost use Rattle.std.specs.Prelude.{◌≡◌, ◌≤◌, ◌↔◌, ◌++◌, IfOk, IfErr, OnErr, OnOk, true};
ghost use Rattle.std.specs.Io.KnownBytes.{Appends, Keeps, append_known};
ghost use Rattle.derdump.specs.Ends.{EndsWell, IsCause, Printed, PrintEnds};
ghost use Rattle.derdump.specs.Outputs.{AddsOutput, AddsSome, line_of};
ghost use Rattle.derdump.specs.Sinks.{is_flushed, octets_of};
ghost use Rattle.derdump.specs.Sources.{GaveOctets, IsFresh, octets_left, octets_taken};
ghost use Rattle.derdump.specs.Words.{Names};
ghost use Rattle.der_parser.specs.Encoding.{encoding};
ghost use Rattle.der_parser.specs.Printer.{printed};
ghost use Rattle.der_parser.specs.View.{tree};

use crate::command::{Command, named_command};
use crate::fault::Fault;
use crate::input::read_input;
use crate::rules::read_object;
use crate::sink::Sink;
use crate::source::Source;
use der_parser::ber::{BerObject, FaultWriter, PrettyBer};
use der_parser::cursor::ReadError;
use der_parser::error::{BerError, Err as Refused};
use std::alloc::{AllocError, Global};
use std::io::{Read, Write};
use std::{io, mem};

/// Pending octets are written when there are this many.
const FLUSH_AT: usize = 8192;

/// How much further the items of a list are indented than the list, and an object than its tag.
const INCREMENT: usize = 2;

/// Prints each element that the reader gives on a line of its own, or writes its encoding, as the word says (X.690 8,
/// 10). Returns the exit status: 0; 1 if an error ends it; 2 if the word names no command. The error is reported on
/// `err`. If that fails, nothing else changes.
pub fn run<R: Read, W: Write, X: Write>(
    alloc: Global,
    word: &str,
    reader: &mut Source<R>,
    out: &mut Sink<W>,
    err: &mut X,
) -> u8
    requires fresh { IsFresh reader.old }
    ensures status { result ≤ 2 }

    // A word that names no command: nothing is read, and nothing printed.
    ensures usage { (result ≡ 2) ↔ ((command : Command) → ¬ Names word.now command) }
    ensures unread { result ≡ 2 → reader.new ≡ reader.old }
    ensures unwritten { result ≡ 2 → out.new ≡ out.old }

    // No error: the reader was read to its end. The input is no larger than the limit, and elements by the command's
    // rules. Each has its line or its encoding. No write failed, and nothing was reported.
    ensures done { (command : Command) → Names word.now command → result ≡ 0
        → EndsWell R.remaining W.contents command reader.old reader.new out.old out.new }
    // An error: it has its cause.
    ensures fault { (command : Command) → Names word.now command → result ≡ 1
        → (f : Fault) × IsCause R.remaining W.contents command reader.old reader.new out.old out.new f }
    ensures taken { GaveOctets (octets_left R.remaining reader.old) (octets_left R.remaining reader.new)
        (octets_taken reader.new) }
    ensures quiet { result ≡ 0 → err.new ≡ err.old }
{
    let Some(command) = named_command(word) else {
        tell(err, Fault::Usage);
        return 2;
    };
    match dump(alloc, command, reader, out) {
        Ok(()) => 0,
        Err(fault) => {
            tell(err, fault);
            1
        }
    }
}

/// Reads everything, and then writes the elements.
fn dump<R: Read, W: Write>(
    alloc: Global,
    command: Command,
    reader: &mut Source<R>,
    out: &mut Sink<W>,
) -> Result<(), Fault>
    requires fresh { IsFresh reader.old }
    ensures done { OnOk result (EndsWell R.remaining W.contents command reader.old reader.new out.old out.new) }
    ensures taken { GaveOctets (octets_left R.remaining reader.old) (octets_left R.remaining reader.new)
        (octets_taken reader.new) }
    ensures fault { IfErr result (IsCause R.remaining W.contents command reader.old reader.new out.old out.new) }
{
    let input = match read_input(alloc, reader) {
        Ok(input) => input,
        Err(fault) => return Err(Fault::Input(fault)),
    };
    print(alloc, command, &input, out)
}

/// Writes the elements of the input. A failed write and a failed allocation are different errors.
fn print<W: Write>(
    alloc: Global,
    command: Command,
    input: &[u8],
    out: &mut Sink<W>,
) -> Result<(), Fault>
    ensures { PrintEnds W.contents command input.now out.old out.new result }
{
    let printed = print_elements(alloc, command, input, out);
    if out.has_failed() {
        return Err(Fault::Write);
    }
    match printed {
        Ok(None) => Ok(()),
        Ok(Some(refused)) => Err(Fault::Element(refused)),
        Err(_) => Err(Fault::OutOfMemory),
    }
}

/// Writes each element of the input, up to one that is rejected. If there is no error of a write, all output is
/// flushed.
fn print_elements<W: Write>(
    alloc: Global,
    command: Command,
    input: &[u8],
    out: &mut Sink<W>,
) -> io::Result<Option<ReadError<BerError>>>
    ensures printed { IfOk result
        (Printed command input.now (octets_of W.contents out.old) (octets_of W.contents out.new)) }
    ensures flushed { OnOk result (is_flushed out.new ≡ true) }
{
    let mut pending = Vec::new(alloc);
    let mut rest = input;
    while !rest.is_empty() {
        match read_object(alloc, command.rules(), rest) {
            Ok((after, object)) => {
                match push_output(alloc, command, &mut pending, object) {
                    Ok(()) => {
                        hand_on_if_many(out, &mut pending)?;
                        rest = after;
                    }
                    Err(AllocError) => {
                        hand_on(out, &pending)?;
                        let offset = input.len() - rest.len();
                        let reason = Refused::OutOfMemory;
                        return Ok(Some(ReadError {
                            offset,
                            list_end: None,
                            reason,
                        }));
                    }
                }
            }
            Err(reason) => {
                hand_on(out, &pending)?;
                let offset = input.len() - rest.len();
                return Ok(Some(ReadError {
                    offset,
                    list_end: None,
                    reason,
                }));
            }
        }
    }
    hand_on(out, &pending)?;
    Ok(None)
}

/// Adds what the command writes of an object, and drops the object. If there is no memory for it, nothing is added.
fn push_output(
    alloc: Global,
    command: Command,
    pending: &mut Vec<u8>,
    object: BerObject<'_>,
) -> Result<(), AllocError>
    ensures ok { OnOk result (AddsOutput command pending.old.items pending.new.items (tree object.entry)) }
    ensures err { OnErr result (pending.new.items ≡ pending.old.items) }
{
    let before = pending.len();
    match push(alloc, command, pending, &object) {
        Ok(()) => Ok(()),
        Err(e) => {
            pending.truncate(before);
            Err(e)
        }
    }
}

/// Adds what the command writes of an object, or a prefix of it.
fn push(
    alloc: Global,
    command: Command,
    pending: &mut Vec<u8>,
    object: &BerObject<'_>,
) -> Result<(), AllocError>
    ensures ok { OnOk result (AddsOutput command pending.old.items pending.new.items (tree object.now)) }
    ensures err { OnErr result (AddsSome pending.old.items pending.new.items) }
{
    match command {
        Command::Ber | Command::Der => push_line(alloc, pending, object),
        Command::Canon => push_encoding(alloc, pending, object),
    }
}

/// Adds the encoding of an object. One with more than 2^64-1 octets counts as a failed allocation.
fn push_encoding(
    alloc: Global,
    pending: &mut Vec<u8>,
    object: &BerObject<'_>,
) -> Result<(), AllocError>
    ensures ok { OnOk result (pending.new.items ≡ pending.old.items ++ encoding (tree object.now)) }
    ensures err { OnErr result (AddsSome pending.old.items pending.new.items) }
{
    let Ok(encoding) = object.to_vec(alloc) else {
        return Err(AllocError);
    };
    pending.extend_from_slice(&encoding)
}

/// Adds the text of an object on a line of its own, or a prefix of it.
fn push_line(alloc: Global, pending: &mut Vec<u8>, object: &BerObject<'_>) -> Result<(), AllocError>
    ensures ok { OnOk result (pending.new.items ≡ pending.old.items ++ line_of (tree object.now)) }
    ensures err { OnErr result (AddsSome pending.old.items pending.new.items) }
{
    let printer = object.as_pretty(alloc, 0, INCREMENT)?;
    push_text(alloc, pending, &printer)?;
    pending.extend_from_slice(b"\n")?;
    Ok(())
}

/// Adds the text that a printer writes, or a prefix of it.
fn push_text(
    alloc: Global,
    pending: &mut Vec<u8>,
    printer: &PrettyBer<'_, '_>,
) -> Result<(), AllocError>
    ensures ok { OnOk result (pending.new.items ≡ pending.old.items ++ printed printer.now) }
    ensures err { OnErr result (AddsSome pending.old.items pending.new.items) }
{
    let mut w = FaultWriter::new(mem::replace(pending, Vec::new(alloc)));
    let written = printer.write_text(&mut w);
    *pending = w.into_inner();
    match written {
        Ok(()) => Ok(()),
        Err(_) => Err(AllocError),
    }
}

/// Writes what is pending, if it is `FLUSH_AT` octets or more.
fn hand_on_if_many<W: Write>(out: &mut Sink<W>, pending: &mut Vec<u8>) -> io::Result<()>
    ensures { OnOk result (Keeps
        (append_known (octets_of W.contents out.old) pending.old.items)
        (append_known (octets_of W.contents out.new) pending.new.items)) }
{
    if pending.len() < FLUSH_AT {
        return Ok(());
    }
    out.write_all(pending)?;
    pending.clear();
    Ok(())
}

/// Writes what is left, and flushes.
fn hand_on<W: Write>(out: &mut Sink<W>, left: &[u8]) -> io::Result<()>
    ensures written { OnOk result (Appends (octets_of W.contents out.old) (octets_of W.contents out.new) left.now) }
    ensures flushed { OnOk result (is_flushed out.new ≡ true) }
{
    out.write_all(left)?;
    out.flush()
}

/// Writes a line about an error. If that fails, nothing is done.
fn tell<X: Write>(err: &mut X, fault: Fault) {
    let _ = writeln!(err, "{fault}");
}
