ghost use Rattle.std.specs.Prelude.{◌↔◌, IsTrue};
ghost use Rattle.expression_text.specs.Grammar.{IsExpression};

use crate::Token;
use crate::place::Position;

/// Whether the tokens are an expression, whatever its columns are.
///
/// It takes time in the number of tokens, no memory and no recursion, so that any line may be asked.
pub fn is_expression(tokens: &[Token]) -> bool
    ensures { IsTrue result ↔ IsExpression tokens.now }
{
    let mut position = Position::start();
    for token in tokens {
        position = position.after(token);
    }
    position.is_end()
}
