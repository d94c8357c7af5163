/// What the words of a command line ask for that looks at a store and changes nothing. A directory is the word that
/// names it; where there is none, the bundle that is read is looked at in the place of its store.
#[derive(Clone, Copy, Drop)]
pub enum LookRequest<'a> {
    /// This of one store.
    One {
        directory: Option<&'a str>,
        question: Question<'a>,
    },
    /// `diff`: which updates only one of two stores has, with whole ids and keys, or as JSON.
    Both {
        first: Option<&'a str>,
        second: Option<&'a str>,
        full: bool,
        json: bool,
    },
    /// `key`: the public key of a directory.
    Key {
        directory: &'a str,
    },
}

/// What is asked of a store.
#[derive(Clone, Copy, Drop)]
pub enum Question<'a> {
    /// A text of its updates.
    Updates(Listing<'a>),
    /// `page`: a page of HTML that shows it.
    Page,
    /// `status`: how much there is.
    Status,
    /// `schema`: the text of its schema.
    Schema,
    /// `records`: the records of its updates, each once.
    Records,
    /// `csv`: this table, or the answer of this query, as comma-separated values.
    Csv(&'a str),
}

/// What is asked of the updates of a store. A text of them has whole ids and keys, or is JSON.
#[derive(Clone, Copy, Drop)]
pub enum Listing<'a> {
    /// `draw`: a picture of them, as DOT or as SVG.
    Picture {
        dot: bool,
    },
    /// `log`: the log of them, with what each did or without.
    Log {
        rows: bool,
        full: bool,
        json: bool,
    },
    /// `show`: the one whose id begins so.
    Show {
        id: &'a str,
        full: bool,
        json: bool,
    },
    /// `who`: the one that inserts the row whose name begins so.
    Who {
        row: &'a str,
        full: bool,
        json: bool,
    },
}
