//! Alternative names (RFC 5280 4.2.1.6), and the attribute of a CSR that requests them (RFC 2985 5.4.2).
ghost use Rattle.std.specs.List.{flat_map};
ghost use Rattle.der_writer.specs.Written.{Puts};
ghost use Rattle.x509_keys.specs.Request.Writer.Octets.{alternative_name_octets, dns_name_octets, extension_octets};
ghost use Rattle.x509_keys.specs.Request.Writer.Octets.{extension_request_octets};

use der_writer::Writer;

/// The content octets of 1.2.840.113549.1.9.14, extensionRequest.
const EXTENSION_REQUEST: &[u8] = b"\x2a\x86\x48\x86\xf7\x0d\x01\x09\x0e";

/// The content octets of 2.5.29.17, subjectAltName.
const SUBJECT_ALT_NAME: &[u8] = b"\x55\x1d\x11";

/// The tag number of a dNSName.
const DNS_NAME: u32 = 2;

/// Puts the value of a subjectAltName extension into a writer: DNS names in IA5String, at least one.
pub fn put_alternative_names(fields: &mut Writer<'_>, dns_names: &[&str])
    ensures { Puts (alternative_name_octets dns_names.now) fields.old fields.new }
{
    let sequence = fields.open_sequence();
    put_dns_names(fields, dns_names);
    fields.close(sequence);
}

fn put_dns_names(fields: &mut Writer<'_>, dns_names: &[&str])
    ensures { Puts (flat_map (λ n. dns_name_octets n.now) dns_names.now) fields.old fields.new }
{
    fields.put_elements(&[]);
    for name in dns_names {
        put_dns_name(fields, name);
    }
}

fn put_dns_name(fields: &mut Writer<'_>, name: &str)
    ensures { Puts (dns_name_octets name.now) fields.old fields.new }
{
    fields.implicit(DNS_NAME).put_octets(name.as_bytes());
}

/// Puts an extensionRequest attribute into a writer. It requests a subjectAltName with these DNS names, at least one.
pub fn put_extension_request(fields: &mut Writer<'_>, dns_names: &[&str])
    ensures { Puts (extension_request_octets dns_names.now) fields.old fields.new }
{
    let attribute = fields.open_sequence();
    fields.put_oid(EXTENSION_REQUEST);
    let values = fields.open_set();
    let extensions = fields.open_sequence();
    put_extension(fields, dns_names);
    fields.close(extensions);
    fields.close(values);
    fields.close(attribute);
}

/// Puts the extension. It isn't critical, which is the default and so isn't encoded (X.690 11.5).
fn put_extension(fields: &mut Writer<'_>, dns_names: &[&str])
    ensures { Puts (extension_octets dns_names.now) fields.old fields.new }
{
    let extension = fields.open_sequence();
    fields.put_oid(SUBJECT_ALT_NAME);
    let value = fields.open_octet_string();
    put_alternative_names(fields, dns_names);
    fields.close(value);
    fields.close(extension);
}
