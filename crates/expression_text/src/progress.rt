ghost use Rattle.std.specs.Prelude.{◌≡◌, ◌≤◌, length, IfOk};
ghost use Rattle.update_model.specs.Text.{IsText};
ghost use Rattle.expression_text.specs.Columns.{column_in, HasRowText};
ghost use Rattle.row_check.specs.Trees.{Check};
ghost use Rattle.expression_text.specs.Machine.{Finished, side_of as side_for, read_begun, read_after_len};
ghost use Rattle.expression_text.specs.Machine.{read_after_column, read_after_term, read_after_sign};
ghost use Rattle.expression_text.specs.Machine.{read_after_sign_len, read_after_is, read_after_native};
ghost use Rattle.expression_text.specs.Machine.{read_after_number, read_after_comma, read_after_argument, read_more};
ghost use Rattle.expression_text.specs.Views.{reading_of};

use crate::Token;
use crate::judging::column_number;
use crate::numbers::check_number;
use row_check::{Cmp, Expr, Term};
use std::alloc::{AllocError, Global};
use update_model::{ByteList, TextValue, Value};

/// What has been read of an operand, and so what may come next. [`crate::place::Place`] says the same without what was
/// read.
#[derive(Drop)]
pub(crate) enum Progress {
    Begun,
    AfterLen,
    AfterColumn(u8),
    AfterTerm(Term),
    AfterSign(Term, Cmp),
    AfterSignLen(Term, Cmp),
    AfterIs(u8),
    AfterNative,
    AfterNumber(u16),
    AfterComma(u16, Vec<u8>),
    AfterArgument(u16, Vec<u8>),
    Finished(Expr),
    Refused,
}

impl Progress {
    /// What has been read after a token more, which is no parenthesis or operator about an operand.
    pub(crate) fn more(
        self,
        alloc: Global,
        token: &Token,
        names: &[TextValue],
    ) -> Result<Progress, AllocError>
        requires few { length names.now ≤ 256 }
        requires text { HasRowText token.now }
        ensures { IfOk result (λ progress. reading_of progress ≡ read_more (column_in names.now) (reading_of self)
            token.now) }
    {
        match self {
            Progress::Begun => begun(alloc, token, names),
            Progress::AfterLen => Ok(after_len(token, names)),
            Progress::AfterColumn(column) => Ok(after_column(column, token)),
            Progress::AfterTerm(left) => Ok(after_term(left, token)),
            Progress::AfterSign(left, cmp) => after_sign(alloc, left, cmp, token, names),
            Progress::AfterSignLen(left, cmp) => Ok(after_sign_len(left, cmp, token, names)),
            Progress::AfterIs(column) => Ok(after_is(column, token)),
            Progress::AfterNative => Ok(after_native(token)),
            Progress::AfterNumber(number) => after_number(alloc, number, token, names),
            Progress::AfterComma(number, columns) => after_comma(number, columns, token, names),
            Progress::AfterArgument(number, columns) => {
                Ok(after_argument(number, columns, token))
            }
            Progress::Finished(_expr) => Ok(Progress::Refused),
            Progress::Refused => Ok(Progress::Refused),
        }
    }
}

/// The number of the column with this name.
fn column(name: &ByteList, names: &[TextValue]) -> u8
    requires { length names.now ≤ 256 }
    ensures { result ≡ column_in names.now name.now }
{
    column_number(names, name.as_slice()).unwrap_or(0) as u8
}

fn row_text(alloc: Global, bytes: &[u8]) -> Result<TextValue, AllocError>
    requires { IsText bytes.now }
    ensures { IfOk result (λ text. text ≡ bytes.now) }
{
    Ok(TextValue::from_vec(Vec::from_slice(alloc, bytes)?))
}

/// A side of a comparison that is one token.
fn side(alloc: Global, token: &Token, names: &[TextValue]) -> Result<Option<Term>, AllocError>
    requires few { length names.now ≤ 256 }
    requires text { HasRowText token.now }
    ensures { IfOk result (λ side. side ≡ side_for (column_in names.now) token.now) }
{
    Ok(match token {
        Token::Column(name) => Some(Term::Column(column(name, names))),
        Token::Integer(n) => Some(Term::Literal(Value::Int(*n))),
        Token::Text(bytes) => Some(Term::Literal(Value::Text(row_text(alloc, bytes.as_slice())?))),
        Token::Flag(flag) => Some(Term::Literal(Value::Flag(*flag))),
        _ => None,
    })
}

fn begun(alloc: Global, token: &Token, names: &[TextValue]) -> Result<Progress, AllocError>
    requires few { length names.now ≤ 256 }
    requires text { HasRowText token.now }
    ensures { IfOk result (λ progress. reading_of progress ≡ read_begun (column_in names.now) token.now) }
{
    match token {
        Token::Column(name) => Ok(Progress::AfterColumn(column(name, names))),
        Token::Len => Ok(Progress::AfterLen),
        Token::Native => Ok(Progress::AfterNative),
        other => Ok(match side(alloc, other, names)? {
            Some(left) => Progress::AfterTerm(left),
            None => Progress::Refused,
        }),
    }
}

fn after_len(token: &Token, names: &[TextValue]) -> Progress
    requires { length names.now ≤ 256 }
    ensures { reading_of result ≡ read_after_len (column_in names.now) token.now }
{
    match token {
        Token::Column(name) => Progress::AfterTerm(Term::Length(column(name, names))),
        _ => Progress::Refused,
    }
}

fn after_column(column: u8, token: &Token) -> Progress
    ensures { reading_of result ≡ read_after_column column token.now }
{
    match token {
        Token::Sign(cmp) => Progress::AfterSign(Term::Column(column), *cmp),
        Token::Is => Progress::AfterIs(column),
        _ => Progress::Refused,
    }
}

fn after_term(left: Term, token: &Token) -> Progress
    ensures { reading_of result ≡ read_after_term left token.now }
{
    match token {
        Token::Sign(cmp) => Progress::AfterSign(left, *cmp),
        _ => Progress::Refused,
    }
}

fn after_sign(
    alloc: Global,
    left: Term,
    cmp: Cmp,
    token: &Token,
    names: &[TextValue],
) -> Result<Progress, AllocError>
    requires few { length names.now ≤ 256 }
    requires text { HasRowText token.now }
    ensures { IfOk result (λ progress. reading_of progress ≡ read_after_sign (column_in names.now) left cmp token.now) }
{
    match token {
        Token::Len => Ok(Progress::AfterSignLen(left, cmp)),
        other => Ok(match side(alloc, other, names)? {
            Some(right) => Progress::Finished(Expr::Compare { left, cmp, right }),
            None => Progress::Refused,
        }),
    }
}

fn after_sign_len(left: Term, cmp: Cmp, token: &Token, names: &[TextValue]) -> Progress
    requires { length names.now ≤ 256 }
    ensures { reading_of result ≡ read_after_sign_len (column_in names.now) left cmp token.now }
{
    match token {
        Token::Column(name) => Progress::Finished(Expr::Compare {
            left,
            cmp,
            right: Term::Length(column(name, names)),
        }),
        _ => Progress::Refused,
    }
}

fn after_is(column: u8, token: &Token) -> Progress
    ensures { reading_of result ≡ read_after_is column token.now }
{
    match token {
        Token::Null => Progress::Finished(Expr::IsNull { column }),
        _ => Progress::Refused,
    }
}

fn after_native(token: &Token) -> Progress
    ensures { reading_of result ≡ read_after_native token.now }
{
    match token {
        Token::Integer(n) => match check_number(*n) {
            Some(number) => Progress::AfterNumber(number),
            None => Progress::Refused,
        },
        _ => Progress::Refused,
    }
}

fn after_number(
    alloc: Global,
    number: u16,
    token: &Token,
    names: &[TextValue],
) -> Result<Progress, AllocError>
    requires { length names.now ≤ 256 }
    ensures { IfOk result (λ progress. reading_of progress ≡ read_after_number (column_in names.now) number token.now) }
{
    match token {
        Token::Column(name) => Ok(native(number, vec![in alloc; column(name, names)]?)),
        Token::Open => Ok(Progress::AfterComma(number, Vec::new(alloc))),
        _ => Ok(Progress::Refused),
    }
}

fn after_comma(
    number: u16,
    mut columns: Vec<u8>,
    token: &Token,
    names: &[TextValue],
) -> Result<Progress, AllocError>
    requires { length names.now ≤ 256 }
    ensures { IfOk result (λ progress. reading_of progress ≡ read_after_comma (column_in names.now) number columns.items
        token.now) }
{
    match token {
        Token::Column(name) => {
            columns.push(column(name, names))?;
            Ok(Progress::AfterArgument(number, columns))
        }
        _ => Ok(Progress::Refused),
    }
}

fn after_argument(number: u16, columns: Vec<u8>, token: &Token) -> Progress
    ensures { reading_of result ≡ read_after_argument number columns.items token.now }
{
    match token {
        Token::Comma => Progress::AfterComma(number, columns),
        Token::Close => native(number, columns),
        _ => Progress::Refused,
    }
}

/// A whole native check.
fn native(number: u16, columns: Vec<u8>) -> Progress
    ensures { reading_of result ≡ Finished (Check number columns.items) }
{
    Progress::Finished(Expr::Native {
        number,
        columns: ByteList::from_vec(columns),
    })
}
