//! The items of octets of a type as lines.
ghost use Rattle.std.specs.Prelude.{◌≡◌, [], IfOk, map};
ghost use Rattle.serde_json.specs.Data.{string};
ghost use Rattle.serde_json.specs.View.{view};
ghost use Rattle.text_json.specs.Shown.Items.{HasItemLines, IsItemLine};
ghost use Rattle.text_json.specs.Shown.Words.{line_view};
ghost use Rattle.type_words.specs.Places.{label_text, said};

use crate::shown::line::{Line, not_empty, text_or_null};
use crate::shown::typed::value_in;
use crate::value::arcs;
use der_base::rules::Rules;
use der_schema::Schema;
use serde_json::Value;
use std::alloc::{AllocError, Global};
use type_words::{Item, Label, Sink, write_words};

/// The lines of items.
#[derive(Drop)]
pub(crate) struct ItemLines {
    lines: Vec<Line>,
    alloc: Global,
}

impl Sink for ItemLines {
    ghost use Rattle.text_json.specs.Shown.Items.{AddsItem};

    ghost put_gives = { AddsItem };

    fn put(&mut self, item: &Item<'_>) -> Result<(), AllocError> {
        let line = line_of(self.alloc, item)?;
        self.lines.push(line)?;
        Ok(())
    }
}

/// The lines of octets by a type, up to the end of the octets or to their first error.
pub(crate) fn item_lines(
    alloc: Global,
    octets: &[u8],
    rules: Rules,
    schema: Schema<'_>,
) -> Result<Vec<Line>, AllocError>
    ensures { IfOk result (λ found. HasItemLines rules schema.entry octets.now (map line_view found.items)) }
{
    let mut items = no_lines(alloc);
    let _end = write_words(octets, rules, schema, &mut items)?;
    Ok(lines_in(items))
}

/// No lines.
fn no_lines(alloc: Global) -> ItemLines
    ensures { result.lines.items ≡ [] }
{
    ItemLines {
        lines: Vec::new(alloc),
        alloc,
    }
}

fn lines_in(items: ItemLines) -> Vec<Line>
    ensures { result.items ≡ items.lines.items }
{
    items.lines
}

/// The line of an item.
fn line_of(alloc: Global, item: &Item<'_>) -> Result<Line, AllocError>
    ensures { IfOk result (λ line. IsItemLine (said item.now) (line_view line)) }
{
    let name = label(alloc, item.label)?;
    let kind = text_or_null(alloc, not_empty(item.kind))?;
    let value = value_in(alloc, item.notation, item.octets)?;
    Ok(Line {
        indent: item.indent,
        name,
        kind,
        value,
        offset: Some(item.offset),
    })
}

/// The text of a label.
fn label(alloc: Global, label: Label<'_>) -> Result<Value, AllocError>
    ensures { IfOk result (λ value. view value ≡ string (label_text label.entry)) }
{
    match label {
        Label::Nothing => Value::try_from_str(alloc, ""),
        Label::Words(words) => Value::try_from_str(alloc, words),
        Label::Identifier(octets) => arcs(alloc, octets, false),
    }
}
