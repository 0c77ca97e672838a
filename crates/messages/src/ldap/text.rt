//! The line that describes a message.
use crate::ldap::message::{Attribute, Change, Content, Message};
use std::fmt;

impl fmt::Display for Message<'_> {
    fn fmt<W: fmt::Write>(&self, f: &mut fmt::Formatter<W>) -> fmt::Result {
        write!(f, "{} {:?}{}", self.id, self.operation, self.content)
    }
}

/// The parts, each after a space.
impl fmt::Display for Content<'_> {
    fn fmt<W: fmt::Write>(&self, f: &mut fmt::Formatter<W>) -> fmt::Result {
        match self {
            Content::Nothing => Ok(()),
            Content::Name(name) => write_text(f, name),
            Content::Rename { name, new_name } => write_texts(f, &[name, new_name]),
            Content::Search(search) => {
                write_text(f, search.base)?;
                write_texts(f, &search.attributes)
            }
            Content::Entry { name, attributes } => {
                write_text(f, name)?;
                write_attributes(f, attributes)
            }
            Content::Modification { name, changes } => {
                write_text(f, name)?;
                write_changes(f, changes)
            }
            Content::Comparison {
                name,
                attribute,
                value,
            } => write_texts(f, &[name, attribute, value]),
            Content::References(uris) => write_texts(f, uris),
            Content::Result {
                code,
                matched_name,
                diagnostic_message,
                ..
            } => {
                write!(f, " {code}")?;
                write_texts(f, &[matched_name, diagnostic_message])
            }
        }
    }
}

fn write_attributes<W: fmt::Write>(
    f: &mut fmt::Formatter<W>,
    attributes: &[Attribute<'_>],
) -> fmt::Result {
    for attribute in attributes {
        write_text(f, attribute.name)?;
    }
    Ok(())
}

fn write_changes<W: fmt::Write>(f: &mut fmt::Formatter<W>, changes: &[Change<'_>]) -> fmt::Result {
    for change in changes {
        write_text(f, change.attribute.name)?;
    }
    Ok(())
}

fn write_texts<W: fmt::Write>(f: &mut fmt::Formatter<W>, texts: &[&[u8]]) -> fmt::Result {
    for text in texts {
        write_text(f, text)?;
    }
    Ok(())
}

fn write_text<W: fmt::Write>(f: &mut fmt::Formatter<W>, text: &[u8]) -> fmt::Result {
    write!(f, " \"{}\"", text.escape_ascii())
}
