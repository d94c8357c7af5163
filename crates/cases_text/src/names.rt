use std::alloc::{AllocError, Global};

/// A name, and what it stands for.
#[derive(Drop)]
struct Bound<'a> {
    name: &'a str,
    value: String,
}

/// What the names of a case stand for.
#[derive(Drop)]
pub struct Names<'a> {
    alloc: Global,
    bound: Vec<Bound<'a>>,
}

impl<'a> Names<'a> {
    /// No name stands for anything.
    pub fn new(alloc: Global) -> Names<'a> {
        Names {
            alloc,
            bound: Vec::new(alloc),
        }
    }

    /// What a name stands for, if it has taken something.
    pub fn value(&self, name: &str) -> Option<&str> {
        for bound in &self.bound {
            if bound.name == name {
                return Some(bound.value.as_str());
            }
        }
        None
    }

    /// Lets a name stand for a text.
    pub(crate) fn bind(&mut self, name: &'a str, value: &str) -> Result<(), AllocError> {
        let value = String::from_str(self.alloc, value)?;
        self.bound.push(Bound { name, value })?;
        Ok(())
    }

    /// How many names stand for something.
    pub(crate) fn count(&self) -> usize {
        self.bound.len()
    }

    /// Forgets all names but so many of the first.
    pub(crate) fn keep(&mut self, count: usize) {
        self.bound.truncate(count);
    }
}
