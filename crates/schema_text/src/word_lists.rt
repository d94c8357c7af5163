//! Lists that a line has.

ghost use Rattle.std.specs.Prelude.{◌≡◌};

use crate::form::SampleValue;
use expression_text::Token;
use std::marker::Model;

/// A list of tokens of an expression. A contract sees the list of its items.
#[derive(Drop)]
pub(crate) struct TokenList {
    tokens: Vec<Token>,
}

impl Model for TokenList {
    ghost use Rattle.std.specs.Prelude.{List};
    ghost use Rattle.expression_text.specs.declared.token.Token.{Token};

    ghost Value = { List Token };

    ghost view = { λ list. list.tokens.items };
}

impl TokenList {
    /// Takes over a vector.
    pub(crate) fn from_vec(tokens: Vec<Token>) -> Self
        ensures { result ≡ tokens.items }
    {
        TokenList { tokens }
    }

    /// Lends the items.
    pub(crate) fn as_slice(&self) -> &[Token]
        ensures { result.now ≡ self.now }
    {
        self.tokens.as_slice()
    }
}

/// A list of values of a `SAMPLE`. A contract sees the list of its items.
#[derive(Drop)]
pub(crate) struct SampleList {
    values: Vec<SampleValue>,
}

impl Model for SampleList {
    ghost use Rattle.std.specs.Prelude.{List};
    ghost use Rattle.schema_text.specs.declared.form.SampleValue.{SampleValue};

    ghost Value = { List SampleValue };

    ghost view = { λ list. list.values.items };
}

impl SampleList {
    /// Takes over a vector.
    pub(crate) fn from_vec(values: Vec<SampleValue>) -> Self
        ensures { result ≡ values.items }
    {
        SampleList { values }
    }

    /// Lends the items.
    pub(crate) fn as_slice(&self) -> &[SampleValue]
        ensures { result.now ≡ self.now }
    {
        self.values.as_slice()
    }
}
