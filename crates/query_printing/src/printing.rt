ghost use Rattle.std.specs.Prelude.{◌≡◌, ◌++◌, map, Ok, IfOk, OnOk};
ghost use Rattle.schema.specs.Data.{SchemaData};
ghost use Rattle.schema_text.specs.Printing.{behind_blanks, sign_text, token_text};
ghost use Rattle.query.specs.Queries.{QueryData, Reads, Say};
ghost use Rattle.query_printing.specs.Printing.{words_text, IsPrintable};

use crate::words_are_read_again;
use expression_text::Token;
use row_check::Cmp;
use std::alloc::{AllocError, Global};
use text_words::{Literal, push_literal, push_quoted};

/// The text of these words, on one line, with a blank between them.
///
/// Where the words say a query over the tables of a schema, the text is that query over the schema (`Reads`), if they
/// are such as `read_query` reads: each is a word as it stands, a text is one that a row may have, and the whole is
/// UTF-8 and not too long. A bad word is printed as nothing. An error comes where memory runs out.
pub fn print_words(alloc: Global, words: &[Token]) -> Result<Vec<u8>, AllocError>
    ensures printed { IfOk result (λ text. text.items ≡ words_text words.now) }
    ensures read_again { (schema : SchemaData) (query : QueryData) → IsPrintable words.now
        → Say schema.tables words.now (Ok query)
        → IfOk result (λ text. Reads schema text.items query) }
{
    words_are_read_again();
    let mut text = Vec::new(alloc);
    push_words(alloc, &mut text, words)?;
    Ok(text)
}

/// Adds words, with a blank between them.
fn push_words(alloc: Global, out: &mut Vec<u8>, words: &[Token]) -> Result<(), AllocError>
    ensures { OnOk result (out.new.items ≡ out.old.items ++ words_text words.now) }
{
    match words {
        [] => Ok(()),
        [first, others @ ..] => {
            push_word(alloc, out, first)?;
            push_others(alloc, out, others)
        }
    }
}

/// Adds words, each behind a blank.
fn push_others(alloc: Global, out: &mut Vec<u8>, words: &[Token]) -> Result<(), AllocError>
    ensures { OnOk result (out.new.items ≡ out.old.items ++ behind_blanks (map token_text words.now)) }
{
    for word in words {
        out.push(b' ')?;
        push_word(alloc, out, word)?;
    }
    Ok(())
}

/// Adds a word.
fn push_word(alloc: Global, out: &mut Vec<u8>, word: &Token) -> Result<(), AllocError>
    ensures { OnOk result (out.new.items ≡ out.old.items ++ token_text word.now) }
{
    match word {
        Token::Column(name) => out.extend_from_slice(name.as_slice()),
        Token::Integer(n) => push_literal(alloc, out, &Literal::Integer(*n)),
        Token::Text(bytes) => push_quoted(out, bytes.as_slice()),
        Token::Flag(flag) => push_literal(alloc, out, &Literal::Flag(*flag)),
        Token::Sign(sign) => push_sign(out, *sign),
        Token::And => out.extend_from_slice(b"AND"),
        Token::Or => out.extend_from_slice(b"OR"),
        Token::Not => out.extend_from_slice(b"NOT"),
        Token::Is => out.extend_from_slice(b"IS"),
        Token::Null => out.extend_from_slice(b"NULL"),
        Token::Native => out.extend_from_slice(b"NATIVE"),
        Token::Len => out.extend_from_slice(b"LEN"),
        Token::Open => out.extend_from_slice(b"("),
        Token::Close => out.extend_from_slice(b")"),
        Token::Comma => out.extend_from_slice(b","),
        Token::Bad => Ok(()),
    }
}

/// Adds a sign of comparison.
fn push_sign(out: &mut Vec<u8>, sign: Cmp) -> Result<(), AllocError>
    ensures { OnOk result (out.new.items ≡ out.old.items ++ sign_text sign) }
{
    match sign {
        Cmp::Eq => out.extend_from_slice(b"="),
        Cmp::Ne => out.extend_from_slice(b"!="),
        Cmp::Lt => out.extend_from_slice(b"<"),
        Cmp::Le => out.extend_from_slice(b"<="),
        Cmp::Gt => out.extend_from_slice(b">"),
        Cmp::Ge => out.extend_from_slice(b">="),
    }
}
