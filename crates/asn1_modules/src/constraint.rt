//! Constraints that say what a string contains.
use crate::fault::Problem;
use crate::lexer::tokens_in;
use crate::token::{Keyword, Symbol, Token, TokenKind};
use std::alloc::Global;

/// The name of the type behind `CONTAINING` in the text of a constraint (X.682 11). None if there is none, or another
/// type than one that is named in this module or imported.
pub fn contained_name<'a>(
    alloc: Global,
    constraint: &'a [u8],
) -> Result<Option<&'a [u8]>, Problem> {
    let tokens = tokens_in(alloc, constraint)?;
    Ok(name_behind_containing(&tokens))
}

fn name_behind_containing<'a>(tokens: &[Token<'a>]) -> Option<&'a [u8]> {
    let containing = tokens.iter().position(|token| token.kind
        == TokenKind::Keyword(Keyword::Containing))?;
    match tokens.get(containing..)? {
        [_, name, next, ..] if name.kind == TokenKind::TypeReference && !goes_on(next.kind) => Some(
            name.text,
        ),
        _ => None,
    }
}

/// Whether an item behind a name makes it that of a module, or gives it parameters.
fn goes_on(kind: TokenKind) -> bool {
    matches!(
        kind,
        TokenKind::Symbol(Symbol::FullStop | Symbol::OpenBrace)
    )
}
