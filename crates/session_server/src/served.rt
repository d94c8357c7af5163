ghost use Rattle.std.specs.Prelude.{◌≡◌, [], None};
ghost use Rattle.session_server.specs.declared.ending.Ending.TheVariants.{Memory as memory};

use crate::Ending;
use std::alloc::Global;
use update_model::IdList;

/// What a session over a link came to.
#[derive(Drop)]
pub struct Served {
    /// How it ended.
    pub ending: Ending,
    /// How many updates it added.
    pub gained: u32,
    /// Of how many turns this end sent or read a frame.
    pub turns: u32,
    /// The id of the peer's node, where its Hello came.
    pub peer: Option<[u8; 32]>,
    /// The ids to remember of the peer: of a session that is done the least 4,096 of both Hellos' heads, and of any
    /// other none.
    pub heads: IdList,
}

impl Served {
    /// What a session came to for whose beginning there was no memory.
    pub(crate) fn never_begun(alloc: Global) -> Served
        ensures { result ≡ record { ending = memory; gained = 0; turns = 0; peer = None; heads = [] } }
    {
        Served {
            ending: Ending::Memory,
            gained: 0,
            turns: 0,
            peer: None,
            heads: IdList::from_vec(Vec::new(alloc)),
        }
    }
}
