ghost use Rattle.std.specs.Prelude.{◌≡◌, false};
ghost use Rattle.clap.specs.Words.{rule_of};
ghost use Rattle.command_words.specs.Words.{rule_for};

use clap::{Arg, ArgAction};
use std::alloc::Global;

/// What an argument looks like among the words.
#[derive(Clone, Copy, Drop)]
pub(crate) enum Form {
    /// A word by its place.
    Position,
    /// `--NAME VALUE` or `--NAME=VALUE`.
    Value,
    /// `--NAME`.
    Flag,
}

/// An argument of a command.
#[derive(Clone, Copy, Drop)]
pub(crate) struct Argument<'a> {
    /// What it is called, and how it is spelled after `--`.
    pub name: &'a str,
    pub form: Form,
    pub required: bool,
}

impl<'a> Argument<'a> {
    /// The argument as `clap` takes it.
    pub(crate) fn declared(self, alloc: Global) -> Arg<'a>
        ensures rule { rule_of result ≡ rule_for self.entry }
        ensures local { result.global ≡ false }
    {
        let arg = Arg::new(alloc, self.name).required(self.required);
        match self.form {
            Form::Position => arg.action(ArgAction::Set),
            Form::Value => arg.long(self.name).action(ArgAction::Set),
            Form::Flag => arg.long(self.name).action(ArgAction::SetTrue),
        }
    }
}
