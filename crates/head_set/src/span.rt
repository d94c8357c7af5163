//! When an id is a head.

ghost use Rattle.std.specs.Prelude.{◌≡◌, ltb};
ghost use Rattle.head_set.specs.Spans.{cut_span, has_moment};

/// The adds after which an id is a head: those after the first `since`, up to the first `until`, if it has an end yet.
/// Contracts inside of the crate name it; callers see lists of heads.
#[derive(Clone, Copy)]
pub struct Span {
    /// How many adds came before its own.
    pub(crate) since: u32,
    /// How many adds came before the first that names it.
    pub(crate) until: Option<u32>,
}

impl Span {
    /// Whether its id is a head after any add, as one that names itself is not.
    pub(crate) fn has_moment(&self) -> bool
        ensures { result ≡ has_moment self.now }
    {
        match self.until {
            Some(until) => self.since < until,
            None => true,
        }
    }

    /// Leaves what the first `len` adds made of it, and says whether it began in them.
    pub(crate) fn cut(&mut self, len: u32) -> bool
        ensures began { result ≡ ltb self.old.since len }
        ensures span { self.new ≡ cut_span self.old len }
    {
        if let Some(until) = self.until {
            if len <= until {
                self.until = None;
            }
        }
        self.since < len
    }
}
