//! Calls that read CSRs (RFC 2986 4).
ghost use Rattle.std.specs.Prelude.{◌≡◌};
ghost use Rattle.c_formats.specs.Items.{Takes, left};
ghost use Rattle.c_formats.specs.Requests.{IsAttribute, IsExtensions, IsRequest, request_fault};
ghost use Rattle.c_values.specs.Faults.{Reads, value_fault};
ghost use Rattle.x509_keys.specs.Request.Requests.{attribute as attribute_format, attribute_of, extension_request};
ghost use Rattle.x509_keys.specs.Request.Requests.{field_fault as request_field_fault, request_of, whole_request};
ghost use Rattle.x509.specs.Lists.{YieldsNext};
ghost use Rattle.x509.specs.Readers.{ReadsExactly, fault_of};

use c_formats::request::{
    DmRequest, DmRequestAttribute, next_attribute, write, write_attribute, write_extensions,
};
use c_values::fault::DmFault;
use c_values::octets::DmOctets;
use x509_keys::request::{Values, read_extension_request, read_request};

/// Reads a CSR by DER; trailing data is an error. Returns the fault's status.
#[unsafe(no_mangle)]
pub extern "C" fn dm_read_request<'a>(
    input: &'a [u8],
    request: &mut DmRequest<'a>,
    fault: &mut DmFault,
) -> u32
    ensures exactly { Reads (ReadsExactly request_field_fault request_of whole_request input.now) IsRequest
        request_fault request.old request.new fault.new }
    ensures status { result ≡ fault.new.status }
{
    *fault = write(read_request(input), request);
    fault.status
}

/// Takes the next attribute. Returns 1, or 0 if there is none.
#[unsafe(no_mangle)]
pub extern "C" fn dm_next_request_attribute<'a>(
    attributes: &mut DmOctets<'a>,
    attribute: &mut DmRequestAttribute<'a>,
) -> u32
    ensures { Takes (λ r. YieldsNext left attribute_of attribute_format attributes.old r attributes.new)
        IsAttribute attribute.old attribute.new result }
{
    write_attribute(next_attribute(attributes), attribute)
}

/// Reads the values of an `extensionRequest` attribute (RFC 2985 5.4.2): the requested extensions. Returns the fault's
/// status.
#[unsafe(no_mangle)]
pub extern "C" fn dm_read_extension_request<'a>(
    values: &'a [u8],
    extensions: &mut DmOctets<'a>,
    fault: &mut DmFault,
) -> u32
    ensures exactly { Reads (ReadsExactly fault_of (λ e. e.octets.now) extension_request values.now) IsExtensions
        value_fault extensions.old extensions.new fault.new }
    ensures status { result ≡ fault.new.status }
{
    *fault = write_extensions(
        read_extension_request(Values { octets: values }),
        extensions,
    );
    fault.status
}
