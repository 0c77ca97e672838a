//! The readers, called from a C program for measurements. A slice is a pointer and a length there.
#![tactic(auto)]

use der_base::rules::Rules;
use der_elements::check::{Element, Listed, list_element};
use der_extensions::read_extension_value;
use der_parser::ber::{
    Any, BerObject, BerObjectContent, FaultWriter, MAX_RECURSION, Visit, parse_ber,
};
use der_parser::cursor::Cursor;
use der_parser::der::{Class, parse_der};
use der_uses::names::read_name;
use std::alloc::Global;
use x509::parts::read_name as read_certificate_name;
use x509::{Certificate, Name, RelativeDistinguishedName, read_certificate};

/// What a pass does with each element.
#[derive(Clone, Copy, PartialEq)]
enum Mode {
    /// Reads the element by DER.
    Der,
    /// Reads the element by BER.
    Ber,
    /// Reads the element by BER, and writes it as DER.
    Canonical,
    /// Reads the element by BER, and writes its text.
    Printed,
}

/// The number of objects in an object, counting itself.
#[cycle(counting)]
fn count_object(object: &BerObject<'_>) -> u64 {
    match &object.content {
        BerObjectContent::Sequence(items) => 1u64.wrapping_add(count_objects(items)),
        BerObjectContent::Set(items) => 1u64.wrapping_add(count_objects(items)),
        _ => 1,
    }
}

/// The number of objects in objects, counting themselves.
#[cycle(counting)]
fn count_objects(objects: &[BerObject<'_>]) -> u64 {
    let mut count: u64 = 0;
    for object in objects {
        count = count.wrapping_add(count_object(object));
    }
    count
}

/// Writes the text of an object, and returns whether it was written.
fn is_printed(alloc: Global, object: &BerObject<'_>) -> bool {
    let mut out = FaultWriter::new(Vec::<u8>::new(alloc));
    match object.as_pretty(alloc, 0, 2) {
        Ok(printer) => printer.write_text(&mut out).is_ok(),
        Err(_) => false,
    }
}

/// The elements of a slice, one after another, or None if one is rejected.
fn read_objects<'a>(alloc: Global, s: &'a [u8], mode: Mode) -> Option<Vec<BerObject<'a>>> {
    let mut objects = Vec::new(alloc);
    let mut left = s;
    for _ in 0..u64::MAX {
        if left.is_empty() {
            break;
        }
        let answer = match mode {
            Mode::Der => parse_der(alloc, left),
            Mode::Ber | Mode::Canonical | Mode::Printed => parse_ber(alloc, left),
        };
        let Ok((rest, object)) = answer else {
            return None;
        };
        if mode == Mode::Canonical && object.to_vec(alloc).is_err() {
            return None;
        }
        if mode == Mode::Printed && !is_printed(alloc, &object) {
            return None;
        }
        if objects.push(object).is_err() {
            return None;
        }
        left = rest;
    }
    Some(objects)
}

/// The number of elements of a slice, whose content isn't read; 0 if one is rejected.
fn count_elements(s: &[u8]) -> u64 {
    let mut count: u64 = 0;
    let mut left = s;
    for _ in 0..u64::MAX {
        if left.is_empty() {
            break;
        }
        let Ok((rest, _)) = Any::from_ber(left) else {
            return 0;
        };
        count = count.wrapping_add(1);
        left = rest;
    }
    count
}

/// Counts the objects that it visits.
#[derive(Clone, Copy)]
struct Counter {
    objects: u64,
}

impl Visit for Counter {
    ghost use Rattle.std.specs.Prelude.{◌≡◌, ◌+◌, ◌%◌, ◌^◌};

    ghost object_step = { λ s _ _ t. t.objects ≡ (s.objects + 1) % 2 ^ 64 };

    fn visit_ber<'t>(&mut self, _object: &BerObject<'t>, _depth: usize) {
        self.objects = self.objects.wrapping_add(1);
    }
}

/// The number of objects that a visitor meets in a slice, by BER; 0 if one is rejected.
fn count_visited(alloc: Global, s: &[u8]) -> u64 {
    let Some(objects) = read_objects(alloc, s, Mode::Ber) else {
        return 0;
    };
    let mut counter = Counter { objects: 0 };
    for object in &objects {
        counter.run(object);
    }
    counter.objects
}

/// The number of objects of a slice; 0 if one is rejected.
fn count_read(alloc: Global, s: &[u8], mode: Mode) -> u64 {
    match read_objects(alloc, s, mode) {
        Some(objects) => count_objects(&objects),
        None => 0,
    }
}

/// The number of attributes in the names of a slice; 0 if one is rejected.
fn count_attributes(alloc: Global, s: &[u8]) -> u64 {
    let mut names = Vec::new(alloc);
    let mut left = s;
    for _ in 0..u64::MAX {
        if left.is_empty() {
            break;
        }
        let Ok((rest, name)) = read_name(alloc, left) else {
            return 0;
        };
        if names.push(name).is_err() {
            return 0;
        }
        left = rest;
    }
    let mut count: u64 = 0;
    for name in &names {
        for attributes in &name.rdns {
            count = count.wrapping_add(attributes.len() as u64);
        }
    }
    count
}

/// The number of attributes in the names of a slice, read with a cursor; 0 if one is rejected.
fn count_cursor_attributes(alloc: Global, s: &[u8]) -> u64 {
    let mut names = Vec::new(alloc);
    let mut left = Cursor::new(s);
    for _ in 0..u64::MAX {
        if left.is_empty() {
            break;
        }
        let Ok(name) = read_certificate_name(&mut left) else {
            return 0;
        };
        if names.push(name).is_err() {
            return 0;
        }
    }
    let mut count: u64 = 0;
    for name in &names {
        count = count.wrapping_add(count_attributes_of(name));
    }
    count
}

/// The number of attributes of a name.
fn count_attributes_of(name: &Name<'_>) -> u64 {
    let mut count: u64 = 0;
    for relative_name in name.relative_names() {
        count = count.wrapping_add(count_in_relative_name(relative_name));
    }
    count
}

/// The number of attributes of a relative name.
fn count_in_relative_name(name: RelativeDistinguishedName<'_>) -> u64 {
    let mut count: u64 = 0;
    for _attribute in name.attributes() {
        count = count.wrapping_add(1);
    }
    count
}

/// The number of certificates of a slice, read by `x509`; 0 if one is rejected.
fn count_certificates(alloc: Global, s: &[u8]) -> u64 {
    let mut certificates = Vec::new(alloc);
    let mut left = s;
    for _ in 0..u64::MAX {
        if left.is_empty() {
            break;
        }
        let Ok((rest, _)) = Any::from_der(left) else {
            return 0;
        };
        let (octets, _) = left.split_at(left.len() - rest.len());
        let Ok(certificate) = read_certificate(octets) else {
            return 0;
        };
        if certificates.push(certificate).is_err() {
            return 0;
        }
        left = rest;
    }
    certificates.len() as u64
}

/// The number of certificates of a slice, whose extension values are read too; 0 if one is rejected.
fn count_certificate_values(s: &[u8]) -> u64 {
    let mut count: u64 = 0;
    let mut left = s;
    for _ in 0..u64::MAX {
        if left.is_empty() {
            break;
        }
        let Ok((rest, _)) = Any::from_der(left) else {
            return 0;
        };
        let (octets, _) = left.split_at(left.len() - rest.len());
        let Ok(certificate) = read_certificate(octets) else {
            return 0;
        };
        count = count.wrapping_add(count_values(&certificate));
        left = rest;
    }
    count
}

/// The number of valid extension values of a certificate.
fn count_values(certificate: &Certificate<'_>) -> u64 {
    let mut count: u64 = 0;
    for extension in certificate.tbs_certificate.extensions.iter() {
        if read_extension_value(&extension).is_ok() {
            count = count.wrapping_add(1);
        }
    }
    count
}

/// The number of elements of a slice, each written to the buffer as far as its capacity allows; 0 if one is rejected.
fn count_nodes(s: &[u8], nodes: &mut [Element], rules: Rules) -> u64 {
    let mut count: u64 = 0;
    let mut left = s;
    for _ in 0..u64::MAX {
        if left.is_empty() {
            break;
        }
        let Some(Listed { elements, rest }) = list_element(left, rules, MAX_RECURSION, nodes) else {
            return 0;
        };
        count = count.wrapping_add(elements as u64);
        left = rest;
    }
    count
}

/// The number of elements of a slice, written to a buffer of 65,536 elements; 0 if one is rejected.
fn count_in_buffer(alloc: Global, s: &[u8], rules: Rules) -> u64 {
    let none = Element {
        class: Class::Universal,
        constructed: false,
        definite: false,
        number: 0,
        header: 0,
        content: 0,
        end: 0,
        inside: 0,
    };
    match vec![in alloc; none; 65536] {
        Ok(mut nodes) => count_nodes(s, &mut nodes, rules),
        Err(_) => 0,
    }
}

/// One pass over a slice. It keeps the objects that it reads, and returns the number of objects, elements, attributes,
/// certificates or extension values; 0 if an element is rejected, and for any other mode. The modes:
///
/// - 0, 1: read objects by DER, by BER
/// - 2, 3: read objects by BER, and write each as DER, as text
/// - 4: read the headers of the outermost elements
/// - 5, 7: read names (X.501 9.2), with their attributes as octets for 7
/// - 6: read objects by BER and count them with a visitor
/// - 8, 14: read certificates (RFC 5280), for 14 with the values of their extensions
/// - 9, 11: list elements in a buffer, by DER, by BER
/// - 10, 12: the same without a buffer
#[unsafe(no_mangle)]
pub extern "C" fn der_bench_pass(alloc: Global, s: &[u8], mode: u64) -> u64 {
    match mode {
        0 => count_read(alloc, s, Mode::Der),
        1 => count_read(alloc, s, Mode::Ber),
        2 => count_read(alloc, s, Mode::Canonical),
        3 => count_read(alloc, s, Mode::Printed),
        4 => count_elements(s),
        5 => count_attributes(alloc, s),
        6 => count_visited(alloc, s),
        7 => count_cursor_attributes(alloc, s),
        8 => count_certificates(alloc, s),
        9 => count_in_buffer(alloc, s, Rules::Der),
        10 => count_nodes(s, &mut [], Rules::Der),
        11 => count_in_buffer(alloc, s, Rules::Ber),
        12 => count_nodes(s, &mut [], Rules::Ber),
        14 => count_certificate_values(s),
        _ => 0,
    }
}
