//! Tags (X.680 31.1).
ghost use Rattle.std.specs.Prelude.{OnOk};
ghost use Rattle.asn1_modules.specs.Progress.{NeverBack};

use crate::fault::{Expected, Fault, Problem};
use crate::parser::cursor::Cursor;
use crate::syntax::{TagClass, TagDefault, TagNumber, Tagging};
use crate::token::{Keyword, TokenKind};
use std::str;

impl<'t, 'a> Cursor<'t, 'a> {
    /// Reads the class of a tag, if one stands here.
    pub fn tag_class(&mut self) -> TagClass
        ensures { NeverBack self.old self.new }
    {
        if self.take_keyword(Keyword::Universal) {
            return TagClass::Universal;
        }
        if self.take_keyword(Keyword::Application) {
            return TagClass::Application;
        }
        if self.take_keyword(Keyword::Private) {
            return TagClass::Private;
        }
        TagClass::ContextSpecific
    }

    /// Reads the number of a tag.
    pub fn tag_number(&mut self) -> Result<TagNumber<'a>, Fault>
        ensures { OnOk result (NeverBack self.old self.new) }
    {
        let offset = self.offset();
        if let Some(name) = self.take(TokenKind::Identifier) {
            return Ok(TagNumber::Reference(name.text));
        }
        let token = self.expect(TokenKind::Number, Expected::Number)?;
        match decimal_number(token.text) {
            Some(number) => Ok(TagNumber::Number(number)),
            None => Err(Fault {
                problem: Problem::TagNumber,
                offset,
            }),
        }
    }

    /// Reads how a tag is applied.
    pub fn tagging(&mut self) -> Tagging
        ensures { NeverBack self.old self.new }
    {
        if self.take_keyword(Keyword::Explicit) {
            return Tagging::Explicit;
        }
        if self.take_keyword(Keyword::Implicit) {
            return Tagging::Implicit;
        }
        Tagging::Default
    }

    /// Reads how tags are applied in a module (13.2).
    pub fn tag_default(&mut self) -> Result<TagDefault, Fault>
        ensures { OnOk result (NeverBack self.old self.new) }
    {
        let default = if self.take_keyword(Keyword::Implicit) {
            TagDefault::Implicit
        } else if self.take_keyword(Keyword::Automatic) {
            TagDefault::Automatic
        } else if self.take_keyword(Keyword::Explicit) {
            TagDefault::Explicit
        } else {
            return Ok(TagDefault::Explicit);
        };
        self.expect_keyword(Keyword::Tags)?;
        Ok(default)
    }
}

/// The number in decimal digits, up to 2^32-1.
fn decimal_number(digits: &[u8]) -> Option<u32> {
    let Ok(text) = str::from_utf8(digits) else {
        return None;
    };
    text.parse().ok()
}
