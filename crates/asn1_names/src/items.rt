//! Lexical items of a part of a text, one after another.
use asn1_modules::{Symbol, Token, TokenKind};

/// Lexical items, and how many of them were read.
#[derive(Clone, Copy)]
pub(crate) struct Items<'t, 'a> {
    pub tokens: &'t [Token<'a>],
    pub read: usize,
}

impl<'t, 'a> Items<'t, 'a> {
    /// The next item.
    pub fn next(&self) -> Option<Token<'a>> {
        let token = self.tokens.get(self.read)?;
        Some(*token)
    }

    /// Reads the next item if it is of this kind, and returns its octets.
    pub fn take(&mut self, kind: TokenKind) -> Option<&'a [u8]> {
        let token = self.next()?;
        if token.kind != kind {
            return None;
        }
        self.read = self.read.saturating_add(1);
        Some(token.text)
    }

    /// Reads the next item if it is this sign.
    pub fn symbol(&mut self, symbol: Symbol) -> Option<()> {
        self.take(TokenKind::Symbol(symbol))?;
        Some(())
    }
}
