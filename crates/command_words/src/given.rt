ghost use Rattle.std.specs.Prelude.{◌≡◌, List, option_map};
ghost use Rattle.clap.specs.Words.{Row, first_of, found_of, rows_of};
ghost use Rattle.command_words.specs.Words.{is_set};

use clap::ArgMatches;
use std::marker::Model;

/// What the words of a command gave for its arguments. A contract sees the rows of `clap`'s definition.
#[derive(Drop)]
pub(crate) struct Given<'a> {
    pub(crate) matches: ArgMatches<'a>,
}

impl<'a> Model for Given<'a> {
    ghost Value = { List Row };

    ghost view = { λ g. rows_of (found_of g.matches) };
}

impl<'a> Given<'a> {
    /// The word that was given for an argument.
    pub(crate) fn word(&self, name: &str) -> Option<&'a str>
        ensures { option_map (λ s. s.now) result ≡ first_of name.now self.now }
    {
        self.matches.get_str(name)
    }

    /// Whether a flag was given.
    pub(crate) fn is_set(&self, name: &str) -> bool
        ensures { result ≡ is_set name.now self.now }
    {
        match self.word(name) {
            Some(word) => word == "true",
            None => false,
        }
    }
}
