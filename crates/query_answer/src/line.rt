use crate::found::FoundValue;
use crate::rows::Row;

/// A row that is asked for, and the values of the keys that it is ordered by, which are found once.
#[derive(Drop)]
pub(crate) struct Line<'a> {
    pub(crate) row: Row<'a>,
    pub(crate) keys: Vec<FoundValue<'a>>,
}
