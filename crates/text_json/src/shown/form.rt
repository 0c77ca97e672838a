//! The types of the values of lines, by their labels.
ghost use Rattle.std.specs.Prelude.{◌≡◌, find};
ghost use Rattle.std.specs.Option.{option_copied};
ghost use Rattle.der_base.specs.TreeEquality.{same_octets};
ghost use Rattle.text_json.specs.Shown.Forms.{constraint_form, extension_form, field_form, form_of, key_form, list_form};
ghost use Rattle.text_json.specs.Shown.Forms.{name_form, other_form, policy_form, time_form};

/// The type of a line's value.
#[derive(Clone, Copy)]
pub(crate) enum Form {
    /// A text.
    Text,
    /// A number in decimal: `3`.
    Number,
    /// `true` or `false`.
    Boolean,
    /// Octets in hexadecimal, or a number of octets or bits: `72 octets`.
    Octets,
    /// A time: `2026-11-24 23:15:41 UTC`.
    Time,
    /// An identifier, as `serverAuth (1.3.6.1.5.5.7.3.1)`, or octets in hexadecimal.
    Identifier,
    /// A number with its name: `status_request (5)`.
    Feature,
    /// Words with spaces between them: `keyCertSign cRLSign`.
    Words,
}

/// The types by the labels of fields.
const FIELDS: &[(&[u8], Form)] = &[
    (b"Version", Form::Number),
    (b"Serial number", Form::Octets),
    (b"Signature algorithm", Form::Identifier),
    (b"Public key", Form::Identifier),
    (b"Signature", Form::Octets),
    (b"SHA-256", Form::Octets),
    (b"SHA-1", Form::Octets),
];

/// The types by the labels of times.
const TIMES: &[(&[u8], Form)] = &[
    (b"Not before", Form::Time),
    (b"Not after", Form::Time),
    (b"This update", Form::Time),
    (b"Next update", Form::Time),
    (b"Date", Form::Time),
    (b"Invalid since", Form::Time),
    (b"Time", Form::Time),
    (b"Milliseconds since 1970", Form::Number),
];

/// The types by the labels of keys.
const KEYS: &[(&[u8], Form)] = &[
    (b"Algorithm", Form::Identifier),
    (b"Curve", Form::Identifier),
    (b"Explicit curve", Form::Octets),
    (b"Parameters", Form::Octets),
    (b"Size", Form::Octets),
    (b"Octets", Form::Octets),
    (b"Modulus", Form::Number),
    (b"Public exponent", Form::Number),
    (b"Primes", Form::Number),
    (b"Private key", Form::Octets),
    (b"Attributes", Form::Octets),
    (b"Encrypted data", Form::Octets),
];

/// The types by the labels of extensions about names and keys.
const NAMES: &[(&[u8], Form)] = &[
    (b"Key identifier", Form::Octets),
    (b"Uses", Form::Words),
    (b"Purpose", Form::Identifier),
    (b"Method", Form::Identifier),
    (b"Registered ID", Form::Identifier),
    (b"X.400 address", Form::Octets),
    (b"EDI party name", Form::Octets),
    (b"Value", Form::Octets),
];

/// The types by the labels of policies.
const POLICIES: &[(&[u8], Form)] = &[
    (b"Policy", Form::Identifier),
    (b"Explicit text", Form::Octets),
    (b"Organization", Form::Octets),
    (b"Policy of the issuer", Form::Identifier),
    (b"Policy of the subject", Form::Identifier),
];

/// The types by the labels of constraints.
const CONSTRAINTS: &[(&[u8], Form)] = &[
    (b"CA", Form::Boolean),
    (b"Path length", Form::Number),
    (b"Require explicit policy", Form::Number),
    (b"Inhibit policy mapping", Form::Number),
    (b"Skip certificates", Form::Number),
    (b"Minimum", Form::Number),
    (b"Maximum", Form::Number),
];

/// The types by the labels of extensions of CRLs.
const LISTS: &[(&[u8], Form)] = &[
    (b"Number", Form::Number),
    (b"Base number", Form::Number),
    (b"Reasons", Form::Words),
    (b"Only some reasons", Form::Words),
    (b"Only user certificates", Form::Boolean),
    (b"Only CA certificates", Form::Boolean),
    (b"Only attribute certificates", Form::Boolean),
    (b"Indirect CRL", Form::Boolean),
];

/// The types by other labels.
const OTHERS: &[(&[u8], Form)] = &[
    (b"Issuer unique ID", Form::Octets),
    (b"Subject unique ID", Form::Octets),
    (b"Attribute", Form::Identifier),
    (b"Challenge password", Form::Octets),
    (b"Log", Form::Octets),
    (b"Timestamp", Form::Octets),
    (b"Feature", Form::Feature),
    (b"Statement", Form::Identifier),
    (b"Information", Form::Octets),
];

/// The type of the value of a line with this label.
pub(crate) fn form_of(label: &[u8]) -> Form
    ensures { result ≡ form_of label.now }
{
    if let Some(form) = field_form(label) {
        return form;
    }
    if let Some(form) = time_form(label) {
        return form;
    }
    if let Some(form) = key_form(label) {
        return form;
    }
    extension_form(label)
}

/// The type of the value of a line of an extension.
fn extension_form(label: &[u8]) -> Form
    ensures { result ≡ extension_form label.now }
{
    if let Some(form) = name_form(label) {
        return form;
    }
    if let Some(form) = policy_form(label) {
        return form;
    }
    if let Some(form) = constraint_form(label) {
        return form;
    }
    if let Some(form) = list_form(label) {
        return form;
    }
    other_form(label).unwrap_or(Form::Text)
}

#[tactic(auto, unfolding(crate::specs::Shown::Forms::field_form))]
fn field_form(label: &[u8]) -> Option<Form>
    ensures { result ≡ field_form label.now }
{
    let (_, form) = row_of(FIELDS, label)?;
    Some(*form)
}

#[tactic(auto, unfolding(crate::specs::Shown::Forms::time_form))]
fn time_form(label: &[u8]) -> Option<Form>
    ensures { result ≡ time_form label.now }
{
    let (_, form) = row_of(TIMES, label)?;
    Some(*form)
}

#[tactic(auto, unfolding(crate::specs::Shown::Forms::key_form))]
fn key_form(label: &[u8]) -> Option<Form>
    ensures { result ≡ key_form label.now }
{
    let (_, form) = row_of(KEYS, label)?;
    Some(*form)
}

#[tactic(auto, unfolding(crate::specs::Shown::Forms::name_form))]
fn name_form(label: &[u8]) -> Option<Form>
    ensures { result ≡ name_form label.now }
{
    let (_, form) = row_of(NAMES, label)?;
    Some(*form)
}

#[tactic(auto, unfolding(crate::specs::Shown::Forms::policy_form))]
fn policy_form(label: &[u8]) -> Option<Form>
    ensures { result ≡ policy_form label.now }
{
    let (_, form) = row_of(POLICIES, label)?;
    Some(*form)
}

#[tactic(auto, unfolding(crate::specs::Shown::Forms::constraint_form))]
fn constraint_form(label: &[u8]) -> Option<Form>
    ensures { result ≡ constraint_form label.now }
{
    let (_, form) = row_of(CONSTRAINTS, label)?;
    Some(*form)
}

#[tactic(auto, unfolding(crate::specs::Shown::Forms::list_form))]
fn list_form(label: &[u8]) -> Option<Form>
    ensures { result ≡ list_form label.now }
{
    let (_, form) = row_of(LISTS, label)?;
    Some(*form)
}

#[tactic(auto, unfolding(crate::specs::Shown::Forms::other_form))]
fn other_form(label: &[u8]) -> Option<Form>
    ensures { result ≡ other_form label.now }
{
    let (_, form) = row_of(OTHERS, label)?;
    Some(*form)
}

/// The first row with this label.
fn row_of<'r>(rows: &'r [(&'static [u8], Form)], label: &[u8]) -> Option<&'r (&'static [u8], Form)>
    ensures { option_copied result ≡ find (λ row. same_octets row.0.now label.now) rows.now }
{
    rows.iter().find(|(name, _)| *name == label)
}
