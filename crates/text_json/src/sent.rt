//! Serializes the object of an element, member after member. A derived impl would promise nothing of what it sends.
ghost use Rattle.std.specs.Prelude.{OnOk};
ghost use Rattle.text_json.specs.Sent.{SendsHeader, SendsIdentifier, SendsMember, SendsMembers, SendsNames};
ghost use Rattle.text_json.specs.Sent.{SendsOrigin, SendsRemarks, SendsSome, SendsValueOf};

use crate::object::Object;
use serde::{Described, Serialize, Serializer};

impl Described for Object<'_> {
    ghost use Rattle.text_json.specs.Sent.{SendsObject};

    ghost writes = { SendsObject };
}

impl Serialize for Object<'_> {
    fn serialize<S: Serializer>(&self, out: &mut S) -> Result<(), S::Error> {
        out.begin_map(None)?;
        send_members(self, out)?;
        out.end_map()
    }
}

fn send_members<S: Serializer>(object: &Object<'_>, out: &mut S) -> Result<(), S::Error>
    ensures { OnOk result (SendsMembers object.now (S.written out.old) (S.written out.new)) }
{
    send_origin(object, out)?;
    send_header(object, out)?;
    send_identifier(object, out)?;
    send_names(object, out)?;
    send_value(object, out)?;
    send_remarks(object, out)
}

fn send_origin<S: Serializer>(object: &Object<'_>, out: &mut S) -> Result<(), S::Error>
    ensures { OnOk result (SendsOrigin object.now (S.written out.old) (S.written out.new)) }
{
    send_some(out, "file", &object.file)?;
    send_some(out, "block", &object.block)?;
    send_some(out, "label", &object.label)
}

fn send_header<S: Serializer>(object: &Object<'_>, out: &mut S) -> Result<(), S::Error>
    ensures { OnOk result (SendsHeader object.now (S.written out.old) (S.written out.new)) }
{
    send(out, "offset", &object.offset)?;
    send(out, "depth", &object.depth)?;
    send(out, "header", &object.header)?;
    send(out, "length", &object.length)
}

fn send_identifier<S: Serializer>(object: &Object<'_>, out: &mut S) -> Result<(), S::Error>
    ensures { OnOk result (SendsIdentifier object.now (S.written out.old) (S.written out.new)) }
{
    send(out, "class", &object.class)?;
    send(out, "tag", &object.tag)?;
    send(out, "constructed", &object.constructed)?;
    send(out, "type", &object.kind)
}

fn send_names<S: Serializer>(object: &Object<'_>, out: &mut S) -> Result<(), S::Error>
    ensures { OnOk result (SendsNames object.now (S.written out.old) (S.written out.new)) }
{
    send(out, "path", &object.path)?;
    send_some(out, "field", &object.field)?;
    send_some(out, "field_path", &object.field_path)?;
    send_some(out, "secret", &object.secret)
}

fn send_value<S: Serializer>(object: &Object<'_>, out: &mut S) -> Result<(), S::Error>
    ensures { OnOk result (SendsValueOf object.now (S.written out.old) (S.written out.new)) }
{
    send(out, "value", &object.value)?;
    send_some(out, "bits", &object.bits)?;
    send_some(out, "time", &object.time)
}

fn send_remarks<S: Serializer>(object: &Object<'_>, out: &mut S) -> Result<(), S::Error>
    ensures { OnOk result (SendsRemarks object.now (S.written out.old) (S.written out.new)) }
{
    send_some(out, "name", &object.name)?;
    send_some(out, "fault", &object.fault)?;
    send_some(out, "octets", &object.octets)
}

/// Serializes a member.
fn send<T: Serialize, S: Serializer>(out: &mut S, name: &str, value: &T) -> Result<(), S::Error>
    ensures { OnOk result (SendsMember name.now (T.writes value.now) (S.written out.old) (S.written out.new)) }
{
    out.key(name)?;
    value.serialize(out)
}

/// Serializes a member, if it has a value.
fn send_some<T: Serialize, S: Serializer>(
    out: &mut S,
    name: &str,
    value: &Option<T>,
) -> Result<(), S::Error>
    ensures { OnOk result (SendsSome name.now T.writes value.now (S.written out.old) (S.written out.new)) }
{
    match value {
        Some(value) => send(out, name, value),
        None => Ok(()),
    }
}
