//! Calls that write the texts of rows and errors. Each writes the text in UTF-8, as far as the capacity allows, and
//! returns its length.
ghost use Rattle.der_elements.specs.TypeNames.{type_text};
ghost use Rattle.dumarewhi_page.specs.Content.Errors.{PutsError, part_numbered};
ghost use Rattle.dumarewhi_page.specs.Content.Paths.{path_to};
ghost use Rattle.dumarewhi_page.specs.Content.Rows.{class_numbered};
ghost use Rattle.dumarewhi_page.specs.Content.Rules.{rules_numbered};
ghost use Rattle.dumarewhi_page.specs.Content.Texts.{Puts};

use crate::content::line::Line;
use crate::content::path::RowPath;
use crate::content::room::put;
use crate::content::row::PageRow;
use crate::content::rules::rules_numbered;
use crate::content::texts::{limit_numbered, part_numbered, put_refusal};
use der_elements::Walk;
use der_print::{Remark, Value};

/// Writes the name of a row's type or tag.
#[unsafe(no_mangle)]
pub extern "C" fn page_name(row: &PageRow, text: &mut [u8]) -> usize
    ensures { Puts text.old (type_text (class_numbered row.now.tag_class) row.now.number) text.new result }
{
    put(text, row.name())
}

/// Writes the value of a row, after a space. If `full` is 0, a long value is cut.
#[unsafe(no_mangle)]
pub extern "C" fn page_value(input: &[u8], row: &PageRow, full: u32, text: &mut [u8]) -> usize {
    let element = row.element(input);
    let limit = limit_numbered(full);
    put(text, Value { element, limit })
}

/// Writes the remark on a value that breaks its type, or nothing.
#[unsafe(no_mangle)]
pub extern "C" fn page_remark(input: &[u8], row: &PageRow, text: &mut [u8]) -> usize {
    match Remark::on(&row.element(input)) {
        Some(remark) => put(text, remark),
        None => 0,
    }
}

/// Writes the line of a row as `der tree` prints it. If `full` is 0, a long value is cut.
#[unsafe(no_mangle)]
pub extern "C" fn page_line(input: &[u8], row: &PageRow, full: u32, text: &mut [u8]) -> usize {
    let element = row.element(input);
    let limit = limit_numbered(full);
    put(text, Line { element, limit })
}

/// Writes the path to a row's element.
#[unsafe(no_mangle)]
pub extern "C" fn page_path(rows: &[PageRow], number: usize, text: &mut [u8]) -> usize
    ensures { Puts text.old (path_to 100 rows.now number) text.new result }
{
    put(text, RowPath { rows, number })
}

/// Writes the error of an input by these rules: the whole sentence if `part` is 0, the cause if 1, else the path.
/// Writes nothing if no element is rejected.
#[unsafe(no_mangle)]
pub extern "C" fn page_refusal(input: &[u8], rules: u32, part: u32, text: &mut [u8]) -> usize
    ensures { PutsError (rules_numbered rules) (part_numbered part) input.now text.old text.new result }
{
    let mut walk = Walk::new(input, rules_numbered(rules), true).keeping_values();
    match walk.find_fault() {
        Some(refusal) => put_refusal(&walk, refusal, part_numbered(part), text),
        None => 0,
    }
}
