//! The words of a summary, as a tree by indentation.
ghost use Rattle.std.specs.Prelude.{◌≡◌, ◌<◌, ◌∷◌, IfOk, MatchOption, OnOk, drop, map};
ghost use Rattle.std.specs.List.{prefix_len, take_while};
ghost use Rattle.serde_json.specs.View.{view};
ghost use Rattle.text_json.specs.Shown.Lines.{is_deeper, with_line, word, words_of};
ghost use Rattle.text_json.specs.Shown.Words.{IsNoneDeeper, line_view, placed_of};

use crate::shown::line::Line;
use serde_json::{Value, json};
use std::alloc::{AllocError, Global};
use std::collections::VecDeque;

/// A word in JSON.
#[derive(Drop)]
pub(crate) struct Word {
    /// The indentation of its line.
    indent: usize,
    value: Value,
}

/// The words of lines. The words of the deeper lines right after a line are inside its word.
pub(crate) fn words_of(alloc: Global, lines: Vec<Line>) -> Result<Vec<Value>, AllocError>
    ensures { IfOk result (λ words. map view words.items ≡ words_of (map line_view lines.items)) }
{
    let mut lines = lines;
    let mut words = VecDeque::new(alloc);
    'lines: while let Some(line) = lines.pop() {
        put_line(alloc, &mut words, line)?;
    }
    take_all(alloc, words)
}

/// Puts the word of a line before the words of later lines.
fn put_line(alloc: Global, words: &mut VecDeque<Word>, line: Line) -> Result<(), AllocError>
    ensures { OnOk result
        (map placed_of words.new.items ≡ with_line (line_view line) (map placed_of words.old.items)) }
{
    let indent = line.indent;
    let inside = take_deeper(alloc, words, indent)?;
    let value = word_of(alloc, line, inside)?;
    words.push_front(Word { indent, value })?;
    Ok(())
}

/// The word of a line, with the words inside.
fn word_of(alloc: Global, line: Line, inside: Vec<Value>) -> Result<Value, AllocError>
    ensures { IfOk result (λ value. view value ≡ word (line_view line) (map view inside.items)) }
{
    let Line {
        indent: _,
        name,
        kind,
        value,
        offset,
    } = line;
    // Values that own memory come first: then less has to be dropped if an allocation fails.
    json!(in alloc; {"words": inside, "name": name, "value": value, "type": kind, "offset": offset})
}

/// Takes the leading words that are deeper than this indentation.
fn take_deeper(
    alloc: Global,
    words: &mut VecDeque<Word>,
    indent: usize,
) -> Result<Vec<Value>, AllocError>
    ensures taken { IfOk result (λ taken. map view taken.items
        ≡ map (λ w. w.word) (take_while (is_deeper indent) (map placed_of words.old.items))) }
    ensures rest { let before = map placed_of words.old.items in
        OnOk result (map placed_of words.new.items ≡ drop (prefix_len (is_deeper indent) before) before) }
{
    let mut taken = Vec::new(alloc);
    'words: while let Some(word) = pop_deeper(words, indent) {
        taken.push(word.value)?;
    }
    Ok(taken)
}

/// Takes the first word, if it is deeper than this indentation.
fn pop_deeper(words: &mut VecDeque<Word>, indent: usize) -> Option<Word>
    ensures { MatchOption result (IsNoneDeeper indent words.old.items words.new.items)
        (λ w. (indent < w.indent) × (words.old.items ≡ w ∷ words.new.items)) }
{
    if words.front()?.indent > indent {
        return words.pop_front();
    }
    None
}

/// The words in JSON.
fn take_all(alloc: Global, mut words: VecDeque<Word>) -> Result<Vec<Value>, AllocError>
    ensures { IfOk result (λ taken. map view taken.items ≡ map (λ w. w.word) (map placed_of words.items)) }
{
    let mut taken = Vec::new(alloc);
    'words: while let Some(word) = words.pop_front() {
        taken.push(word.value)?;
    }
    Ok(taken)
}
