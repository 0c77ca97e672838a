//! QCStatements: statements about a qualified certificate (RFC 3739 3.2.6).
ghost use Rattle.std.specs.Option.{option_map};
ghost use Rattle.der_base.specs.declared.rules.Rules.{Rules};
ghost use Rattle.der_cursor.specs.Formats.{AnyElement, IfLeft, Never, ReadsField, ReadsInput, Required, element_of};
ghost use Rattle.der_extensions.specs.Lists.{list_octets};
ghost use Rattle.der_extensions.specs.WebExtensions.{QCStatement as StatementFormat, QCStatements as StatementsFormat};
ghost use Rattle.der_extensions.specs.WebExtensions.{statement_of};

use crate::list::{Item, SequenceOf, read_list_of_any};
use der_base::any::Any;
use der_base::error::BerError;
use der_base::header::{Class, Tag};
use der_cursor::{Cursor, ReadError};
use der_values::ObjectIdentifier;

/// Any number of statements.
pub type QcStatements<'a> = SequenceOf<'a, QcStatement<'a>>;

/// A statement.
#[derive(Drop)]
pub struct QcStatement<'a> {
    pub statement_id: ObjectIdentifier<'a>,
    /// A value whose type the identifier names. Its content isn't checked.
    pub statement_info: Option<Any<'a>>,
}

/// Reads the value of a qcStatements by DER: any number of statements. Trailing data is an error.
pub fn read_qc_statements(octets: &[u8]) -> Result<QcStatements<'_>, ReadError<BerError>>
    ensures { ReadsInput Rules.Der StatementsFormat list_octets Never octets.now result }
{
    match read_list_of_any::<QcStatement<'_>, BerError>(octets) {
        Ok(statements) => Ok(statements),
        Err(e) => Err(e.of_element(Cursor::new(octets), Class::Universal, true, Tag::Sequence)),
    }
}

impl<'a> Item<'a, BerError> for QcStatement<'a> {
    ghost use Rattle.der_cursor.specs.Formats.{Required};
    ghost use Rattle.der_cursor.proofs.FormatLaws.{required_takes};
    ghost use Rattle.der_extensions.specs.WebExtensions.{QCStatement as StatementFormat, StatementValue, statement_of};

    ghost Value = { StatementValue };

    ghost field = { Required StatementFormat };

    ghost view = { statement_of };

    fn read(list: &mut Cursor<'a>) -> Result<QcStatement<'a>, ReadError<BerError>> {
        read_statement(list)
    }

    ghost takes = { required_takes StatementFormat };
}

fn read_statement<'a>(list: &mut Cursor<'a>) -> Result<QcStatement<'a>, ReadError<BerError>>
    ensures { ReadsField (Required StatementFormat) statement_of Never list.old result list.new }
{
    let mut fields = list.open_sequence()?;
    let statement_id = fields.oid()?;
    let statement_info = read_info(&mut fields)?;
    fields.end()?;
    Ok(QcStatement {
        statement_id,
        statement_info,
    })
}

/// Reads an element of any type, if octets are left.
fn read_info<'a>(fields: &mut Cursor<'a>) -> Result<Option<Any<'a>>, ReadError<BerError>>
    ensures { ReadsField (IfLeft AnyElement) (λ x. option_map element_of x) Never fields.old result fields.new }
{
    if fields.is_empty() {
        return Ok(None);
    }
    Ok(Some(fields.any()?))
}
