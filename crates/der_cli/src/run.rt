//! The action of a subcommand on an input.
ghost use Rattle.std.specs.Prelude.{◌≡◌, ◌≢◌, ◌↔◌, IfErr, IfOk, IsOkAnd, IsTrue, MatchBool, MatchResult};
ghost use Rattle.std.specs.Prelude.{None, Ok, OnOk, Some, false};
ghost use Rattle.der_input.specs.declared.error.FormError.{FormError};
ghost use Rattle.der_input.specs.declared.form.Form.{Form};
ghost use Rattle.der_input.specs.Blocks.{label_of, lines_of};
ghost use Rattle.der_input.specs.Forms.{FindsNoForm};
ghost use Rattle.der_cli.specs.Inputs.{IsFormOf, ReadsInput, RefusesInput, TakesBlock, TakesPem, TellsWhy};
ghost use Rattle.der_actions.specs.Outputs.{IsChecked};
ghost use Rattle.der_cli.specs.Outputs.{IsRefusedBy, RefusesFile, Writes, WritesFile, WritesHeading};
ghost use Rattle.der_cli.specs.Outputs.{WritesInside, WritesName, has_heading};
ghost use Rattle.der_actions.specs.declared.options.Action.{Action};
ghost use Rattle.der_actions.specs.declared.origin.BlockName.{BlockName};

use crate::show::show;
use der_actions::canon::write_canonical;
use der_actions::check::check;
use der_actions::get::write_part;
use der_actions::label::{Label, shown_label};
use der_actions::name::Name;
use der_actions::options::{Action, Options};
use der_actions::origin::{BlockName, Origin};
use der_actions::print::{Lines, print_lines};
use der_actions::report::refuse_form;
use der_input::{Block, Form, FormError, decode_base64, decode_hex, form_of, next_block};
use std::alloc::Global;
use std::io;
use std::io::{ErrorKind, Write};

/// Runs the action of the options on an input, and reports on `err` why the input is rejected. Returns whether all of
/// it was accepted. A check accepts an input of valid elements and nothing else.
pub fn run<W: Write, X: Write>(
    alloc: Global,
    options: &Options<'_>,
    name: &str,
    input: &[u8],
    out: &mut W,
    err: &mut X,
) -> io::Result<bool>
    ensures checked { options.now.action ≡ Action.Check → options.now.form ≡ Some Form.Der
        → IfOk result (λ ok. IsTrue ok ↔ IsChecked options.now input.now) }
    ensures read { IfOk result (λ ok. IsTrue ok
        → ReadsInput options.now name.now input.now (W.contents out.old) (W.contents out.new)) }
    ensures refused { IfOk result (λ ok. ok ≡ false
        → RefusesInput options.now name.now input.now (W.contents out.old) (W.contents out.new)) }
{
    match form_in(options.form, input) {
        Ok(Form::Der) => act_on_file(alloc, options, name, input, out, err),
        Ok(Form::Pem) => act_on_blocks(alloc, options, name, input, out, err),
        Ok(Form::Hex) => act_on_decoded(options, name, decode_hex(alloc, input), alloc, out, err),
        Ok(Form::Base64) => act_on_decoded(
            options,
            name,
            decode_base64(alloc, input),
            alloc,
            out,
            err,
        ),
        Err(e) => refuse_file(options, name, e, out, err),
    }
}

/// The form of an input: the given one, or else the one that is detected.
pub(crate) fn form_in(asked: Option<Form>, input: &[u8]) -> Result<Form, FormError>
    ensures found { IfOk result (IsFormOf asked input.now) }
    ensures asked { (form : Form) → asked ≡ Some form → result ≡ Ok form }
    ensures none { IfErr result (λ e. (asked ≡ None) × FindsNoForm input.now e) }
{
    match asked {
        Some(form) => Ok(form),
        None => form_of(input),
    }
}

/// Runs the action on decoded octets, or reports why they can't be decoded.
fn act_on_decoded<W: Write, X: Write>(
    options: &Options<'_>,
    name: &str,
    decoded: Result<Vec<u8>, FormError>,
    alloc: Global,
    out: &mut W,
    err: &mut X,
) -> io::Result<bool>
    ensures read { IfOk result (λ ok. IsTrue ok → IsOkAnd decoded (λ v. WritesFile options.now name.now v.items
        (W.contents out.old) (W.contents out.new))) }
    ensures refused { IfOk result (λ ok. ok ≡ false → MatchResult decoded
        (λ v. RefusesFile options.now name.now v.items (W.contents out.old) (W.contents out.new))
        (λ e. (e ≢ FormError.OutOfMemory) × TellsWhy options.now (W.contents out.old) (W.contents out.new))) }
{
    match decoded {
        Ok(octets) => act_on_file(alloc, options, name, &octets, out, err),
        Err(FormError::OutOfMemory) => Err(io::Error::from(ErrorKind::OutOfMemory)),
        Err(e) => refuse_file(options, name, e, out, err),
    }
}

/// Runs the action on the octets of an input that has no blocks. If there are several files, a tree or a summary
/// follows the file name.
fn act_on_file<W: Write, X: Write>(
    alloc: Global,
    options: &Options<'_>,
    name: &str,
    octets: &[u8],
    out: &mut W,
    err: &mut X,
) -> io::Result<bool>
    ensures checked { options.now.action ≡ Action.Check
        → IfOk result (λ ok. IsTrue ok ↔ IsChecked options.now octets.now) }
    ensures written { IfOk result (λ ok. IsTrue ok
        → WritesFile options.now name.now octets.now (W.contents out.old) (W.contents out.new)) }
    ensures refused { IfOk result (λ ok. ok ≡ false
        → RefusesFile options.now name.now octets.now (W.contents out.old) (W.contents out.new)) }
{
    write_heading(options, name, out)?;
    act(
        alloc,
        options,
        Origin { name, block: None },
        octets,
        out,
        err,
    )
}

/// Writes the name of a file before its tree or summary, if there are several.
fn write_heading<W: Write>(options: &Options<'_>, name: &str, out: &mut W) -> io::Result<()>
    ensures { OnOk result (MatchBool options.now.has_several_files
        (WritesName options.now name.now (W.contents out.old) (W.contents out.new))
        (W.contents out.new ≡ W.contents out.old)) }
{
    if options.has_several_files {
        return write_name(options, name, out);
    }
    Ok(())
}

/// Writes the name of a file before its tree or summary.
fn write_name<W: Write>(options: &Options<'_>, name: &str, out: &mut W) -> io::Result<()>
    ensures { OnOk result (WritesName options.now name.now (W.contents out.old) (W.contents out.new)) }
{
    if !has_heading(options) {
        return Ok(());
    }
    writeln!(out, "{}:", Name(name))
}

/// Whether a line with the name precedes the output. This is so for a tree, and for a summary that isn't JSON.
fn has_heading(options: &Options<'_>) -> bool
    ensures { result ≡ has_heading options.now }
{
    matches!(options.action, Action::Tree | Action::Show) && !options.is_json
}

/// Runs the action on octets.
fn act<W: Write, X: Write>(
    alloc: Global,
    options: &Options<'_>,
    origin: Origin<'_>,
    octets: &[u8],
    out: &mut W,
    err: &mut X,
) -> io::Result<bool>
    ensures checked { options.now.action ≡ Action.Check
        → IfOk result (λ ok. IsTrue ok ↔ IsChecked options.now octets.now) }
    ensures written { origin.entry.block ≡ None → IfOk result (λ ok. IsTrue ok
        → Writes options.now.action options.now octets.now (W.contents out.old) (W.contents out.new)) }
    ensures inside { (block : BlockName) → origin.entry.block ≡ Some block → IfOk result (λ ok. IsTrue ok
        → WritesInside options.now.action options.now block.label.now octets.now
        (W.contents out.old) (W.contents out.new)) }
    ensures refused { IfOk result (λ ok. ok ≡ false → IsRefusedBy options.now.action options.now octets.now
        (W.contents out.old) (W.contents out.new)) }
{
    match options.action {
        Action::Check => check(options, origin, octets, out),
        Action::Canon => write_canonical(alloc, origin, octets, out, err),
        Action::Tree => print_lines(alloc, options, Lines::Tree, origin, octets, out, err),
        Action::Json => print_lines(alloc, options, Lines::Json, origin, octets, out, err),
        Action::Get => write_part(alloc, options, origin, octets, out, err),
        Action::Show => show(alloc, options, origin, octets, out, err),
    }
}

/// Runs the action on the blocks of a PEM text.
fn act_on_blocks<W: Write, X: Write>(
    alloc: Global,
    options: &Options<'_>,
    name: &str,
    text: &[u8],
    out: &mut W,
    err: &mut X,
) -> io::Result<bool>
    ensures { IfOk result (TakesPem options.now name.now text.now (W.contents out.old) (W.contents out.new)) }
{
    let mut rest = text;
    let mut are_read = true;
    // A block has at least one octet, so the loop ends at the end of the text.
    for before in 0..=text.len() {
        match next_block(rest) {
            Ok(Some((block, after))) => {
                let is_read = act_on_block(alloc, options, name, before, &block, out, err)?;
                are_read = are_read && is_read;
                rest = after;
            }
            Ok(None) if before > 0 => return Ok(are_read),
            Ok(None) => return refuse_file(options, name, FormError::NoBlock, out, err),
            Err(e) => return refuse_file(options, name, e, out, err),
        }
    }
    Ok(false)
}

/// Runs the action on a block with this many blocks before it. A tree or a summary follows the label of the block.
fn act_on_block<'x, W: Write, X: Write>(
    alloc: Global,
    options: &Options<'_>,
    name: &'x str,
    before: usize,
    block: &Block<'x>,
    out: &mut W,
    err: &mut X,
) -> io::Result<bool>
    ensures { IfOk result (TakesBlock options.now name.now (label_of block.now) (lines_of block.now)
        (W.contents out.old) (W.contents out.new)) }
{
    let label = block.label;
    write_label(options, name, label, out)?;
    let text = shown_label(alloc, label)?;
    let shown = text.as_str();
    let number = before.saturating_add(1);
    let block_name = Some(BlockName {
        number,
        label,
        shown,
    });
    let origin = Origin {
        name,
        block: block_name,
    };
    match block.decode(alloc) {
        Ok(octets) => act(alloc, options, origin, octets.as_slice(), out, err),
        Err(FormError::OutOfMemory) => Err(io::Error::from(ErrorKind::OutOfMemory)),
        Err(e) => refuse_form(options, origin, e, out, err),
    }
}

/// Writes the name of a file and the label of a block, before its tree or summary.
fn write_label<W: Write>(
    options: &Options<'_>,
    name: &str,
    label: &[u8],
    out: &mut W,
) -> io::Result<()>
    ensures { OnOk result (WritesHeading options.now name.now label.now (W.contents out.old) (W.contents out.new)) }
{
    if !has_heading(options) {
        return Ok(());
    }
    writeln!(out, "{}: {}", Name(name), Label(label))
}

/// Reports a file that can't be decoded.
fn refuse_file<W: Write, X: Write>(
    options: &Options<'_>,
    name: &str,
    e: FormError,
    out: &mut W,
    err: &mut X,
) -> io::Result<bool>
    ensures refused { IfOk result (λ ok. ok ≡ false) }
    ensures told { OnOk result (TellsWhy options.now (W.contents out.old) (W.contents out.new)) }
{
    refuse_form(options, Origin { name, block: None }, e, out, err)
}
