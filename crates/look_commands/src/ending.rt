//! The exit status where one update is asked for, and none fits or several do.

ghost use Rattle.std.specs.Prelude.{◌≡◌};
ghost use Rattle.command_words.specs.Seen.{look_seen};
ghost use Rattle.look_commands.specs.Ending.{lacks_one, status_with};

use command_words::{Listing, LookRequest, Question};
use outcomes::Refusal;
use outcomes::status::{DONE, REFUSED};

/// Whether one update is asked for, and none fits or several do: nothing is printed of it.
pub fn lacks_one(request: &LookRequest, outcome: &Result<Vec<u8>, Refusal>) -> bool
    ensures { result ≡ lacks_one (look_seen request.now) outcome.now }
{
    match (request, outcome) {
        (
            LookRequest::One {
                question: Question::Updates(Listing::Show { .. }),
                ..
            },
            Ok(text),
        ) => text.is_empty(),
        (
            LookRequest::One {
                question: Question::Updates(Listing::Who { .. }),
                ..
            },
            Ok(text),
        ) => text.is_empty(),
        _ => false,
    }
}

/// The exit status of what is said with this one.
pub fn status_with(lacks: bool, status: u8) -> u8
    ensures { result ≡ status_with lacks status }
{
    if lacks && status == DONE {
        REFUSED
    } else {
        status
    }
}
