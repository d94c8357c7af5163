ghost use Rattle.std.specs.Prelude.{◌≡◌};
ghost use Rattle.confluence_checker.specs.Forms.{seen, start};

/// What is found where the invariants of a schema are gone through in order, until a wanted one.
#[derive(Clone, Copy)]
pub(crate) struct FoundInvariant {
    /// Whether those before the wanted one hold.
    pub(crate) earlier: bool,
    /// Whether the wanted one holds, once it has been found.
    pub(crate) here: Option<bool>,
}

impl FoundInvariant {
    /// Before one is looked at.
    pub(crate) fn start() -> FoundInvariant
        ensures { result ≡ start }
    {
        FoundInvariant {
            earlier: true,
            here: None,
        }
    }

    /// With one invariant more: whether it is the wanted one, and whether it holds.
    pub(crate) fn seen(self, wanted: bool, holds: bool) -> FoundInvariant
        ensures { result ≡ seen self wanted holds }
    {
        if self.here.is_some() {
            return self;
        }
        if wanted {
            FoundInvariant {
                earlier: self.earlier,
                here: Some(holds),
            }
        } else {
            FoundInvariant {
                earlier: self.earlier && holds,
                here: None,
            }
        }
    }
}
