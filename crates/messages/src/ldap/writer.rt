//! Writes LDAP messages (RFC 4511) to a buffer.
ghost use Rattle.std.specs.List.{flat_map};
ghost use Rattle.der_base.specs.declared.header.Class.TheVariants.{ContextSpecific};
ghost use Rattle.der_writer.specs.Fields.{OctetString, primitive};
ghost use Rattle.der_writer.specs.Written.{Puts, Wrote};
ghost use Rattle.messages.specs.Ldap.Writer.Octets.{equality_octets, filter_octets, search_octets};

pub mod laws;
mod search;

use der_base::header::{Class, Tag};
use der_writer::{WriteError, Writer};
pub use search::{DerefAliases, Filter, Scope, Search};

/// The tag number of a SearchRequest, of class application (RFC 4511 4.5.1).
const SEARCH_REQUEST: Tag = Tag(3);

/// The tag numbers of filters (RFC 4511 4.5.1).
const EQUALITY_MATCH: u32 = 3;

const PRESENT: u32 = 7;

/// Writes a search request without controls.
pub fn write_search(
    out: &mut [u8],
    message_id: u32,
    search: &Search<'_>,
) -> Result<usize, WriteError>
    ensures { Wrote (search_octets message_id search.now) out.old out.new result }
{
    let mut fields = Writer::new(out);
    put_search(&mut fields, message_id, search);
    fields.finish()
}

/// Puts a search request into a writer.
pub fn put_search(fields: &mut Writer<'_>, message_id: u32, search: &Search<'_>)
    ensures { Puts (search_octets message_id search.now) fields.old fields.new }
{
    let message = fields.open_sequence();
    fields.put_u32(message_id);
    let request = fields.open(Class::Application, true, SEARCH_REQUEST);
    fields.put_octets(search.base_object);
    fields.put_enumerated(search.scope.number());
    fields.put_enumerated(search.deref_aliases.number());
    fields.put_u32(search.size_limit);
    fields.put_u32(search.time_limit);
    fields.put_bool(search.types_only);
    put_filter(fields, &search.filter);
    let attributes = fields.open_sequence();
    put_texts(fields, search.attributes);
    fields.close(attributes);
    fields.close(request);
    fields.close(message);
}

/// Puts a filter into a writer.
pub fn put_filter(fields: &mut Writer<'_>, filter: &Filter<'_>)
    ensures { Puts (filter_octets filter.now) fields.old fields.new }
{
    match filter {
        Filter::Present(attribute) => put_present(fields, attribute),
        Filter::EqualityMatch { attribute, value } => put_equality(fields, attribute, value),
    }
}

fn put_present(fields: &mut Writer<'_>, attribute: &[u8])
    ensures { Puts (primitive ContextSpecific 7 attribute.now) fields.old fields.new }
{
    fields.implicit(PRESENT).put_octets(attribute);
}

fn put_equality(fields: &mut Writer<'_>, attribute: &[u8], value: &[u8])
    ensures { Puts (equality_octets attribute.now value.now) fields.old fields.new }
{
    let equality = fields.open_tagged(EQUALITY_MATCH);
    fields.put_octets(attribute);
    fields.put_octets(value);
    fields.close(equality);
}

/// Puts texts, each an OCTET STRING.
fn put_texts(fields: &mut Writer<'_>, texts: &[&[u8]])
    ensures { Puts (flat_map (λ x. OctetString x.now) texts.now) fields.old fields.new }
{
    fields.put_elements(&[]);
    for text in texts {
        fields.put_octets(text);
    }
}
