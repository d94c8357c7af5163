//! Lists of words.

ghost use Rattle.std.specs.Prelude.{◌≡◌};
ghost use Rattle.explanations.specs.Habits.{aggregates, keywords};
ghost use Rattle.explanations.specs.Parts.{stands_among};
ghost use Rattle.explanations.specs.Values.{commands};

use crate::parts::first_part;

/// Whether a word is one of those of a list, which stand apart by blanks.
pub(crate) fn is_among(word: &[u8], list: &[u8]) -> bool
    ensures { result ≡ stands_among word.now list.now }
{
    let mut rest = list;
    while let Some((other, after)) = first_part(rest, b' ') {
        if other == word {
            return true;
        }
        rest = after;
    }
    false
}

/// Whether a word is the name of a command.
pub(crate) fn is_command(word: &[u8]) -> bool
    ensures { result ≡ stands_among word.now commands }
{
    is_among(word, COMMANDS)
}

/// Whether a word is the name of a function over many rows.
pub(crate) fn is_aggregate(word: &[u8]) -> bool
    ensures { result ≡ stands_among word.now aggregates }
{
    is_among(word, AGGREGATES)
}

/// Whether a word is a keyword in small letters.
pub(crate) fn is_keyword(word: &[u8]) -> bool
    ensures { result ≡ stands_among word.now keywords }
{
    is_among(word, KEYWORDS)
}

/// The names of the commands.
const COMMANDS: &[u8] =
    b"init keygen apply join set dump query watch heads notes export draw log show who diff status schema \
key csv page import clone merge sync serve check hsskey seal unseal audit confirm world demo";

/// The names of functions over many rows.
const AGGREGATES: &[u8] = b"COUNT SUM MIN MAX AVG GROUP HAVING DISTINCT";

/// The keywords, in small letters.
const KEYWORDS: &[u8] =
    b"select from where order by desc limit and or not is null insert delete database table column ref check \
match unique atmost sample author true false";
