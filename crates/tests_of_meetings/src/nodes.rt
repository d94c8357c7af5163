//! Nodes that have a shelf each.

ghost use Rattle.bec_disk.specs.Shelved.{shelf_of};
ghost use Rattle.key_directory.specs.Parts.{IsHome};

use crate::pipes::{PipeNet, Sockets};
use crate::runs::run_over;
use bec_disk::MemShelf;
use std::alloc::{AllocError, Global};
use std::sync::Wait;
use std::thread::Threads;

/// A shelf, and what the last run over it answered. No part of it is handed out.
#[derive(Drop)]
pub struct Node {
    shelf: MemShelf,
    /// The status.
    pub status: u8,
    /// What it printed.
    pub text: Vec<u8>,
    ghost home: { IsHome (shelf_of shelf) },
}

impl Node {
    /// A node with a copy of a shelf, over which nothing was run.
    pub fn new(alloc: Global, shelf: &MemShelf) -> Result<Node, AllocError>
        requires { IsHome (shelf_of shelf.now) }
    {
        Ok(Node {
            shelf: shelf.restart(0)?,
            status: 0,
            text: Vec::new(alloc),
        })
    }

    /// The node after a run over its shelf and a net that hands these ends of pipes out. Its status is 255 where there
    /// was no memory.
    pub fn ran<T: Threads + Wait + Sync>(
        self,
        rt: &T,
        alloc: Global,
        sockets: Sockets,
        line: &str,
    ) -> Node {
        let Node { mut shelf, .. } = self;
        let mut net = PipeNet::new(rt, alloc, sockets);
        match run_over(rt, alloc, &mut shelf, &mut net, line, b"") {
            Ok((status, text)) => Node {
                shelf,
                status,
                text,
            },
            Err(_) => Node {
                shelf,
                status: 255,
                text: Vec::new(alloc),
            },
        }
    }

    /// The node after a run that asks for no net.
    pub fn told<T: Threads + Wait + Sync>(self, rt: &T, alloc: Global, line: &str) -> Node {
        self.ran(rt, alloc, (None, None), line)
    }
}
