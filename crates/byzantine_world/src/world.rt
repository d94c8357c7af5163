//! A world.

ghost use Rattle.std.specs.Prelude.{◌≡◌, false, true, IfOk, IfErr, OnOk, OnErr, MatchOption, slice_get};
ghost use Rattle.row_check.specs.Checksum.{is_luhn};
ghost use Rattle.byzantine_world.specs.Begun.{IsBegun, IsWorldCause};
ghost use Rattle.byzantine_world.specs.Codes.{ShowsWorld};
ghost use Rattle.byzantine_world.specs.Events.{HasForm};
ghost use Rattle.world_rules.specs.Happens.{Happens};
ghost use Rattle.world_rules.specs.Worlds.{SiteData, WorldData, is_up};

use crate::beginning::{check_text, no_talks, sites_of};
use crate::state::State;
use crate::world_fault::WorldFault;
use bec_disk::MemDisk;
use lms_tree::KeyTypes;
use numbered_words::Words;
use replica::Replica;
use row_check::Luhn;
use schema_text::{declared_is_sound, one_schema};
use std::alloc::{AllocError, Global};
use std::marker::Model;
use world_rules::{Event, Stepped};

/// The number of replicas that a world may have.
const REPLICAS: u32 = 16;

/// Correct replicas of one schema, and the sessions that they hold among themselves and with liars.
///
/// A contract sees the replicas, the sessions as the code has them, and whether the world is over. Of whatever world of
/// `world_rules` they show, each event is one of its events.
#[derive(Drop)]
pub struct World {
    pub(crate) state: State,
    pub(crate) is_over: bool,
}

impl Model for World {
    ghost use Rattle.std.specs.Prelude.{◌≡◌, false};
    ghost use Rattle.schema.specs.Checks.{coded_tree};
    ghost use Rattle.std.specs.Coded.{codes};
    ghost use Rattle.byzantine_world.specs.Codes.{WorldCode};
    ghost use Rattle.byzantine_world.specs.Standing.{IsStanding};

    ghost Value = { WorldCode };

    ghost coded = { Prim.hlevel (codes, coded_tree) };

    ghost view = { λ w. record { sites = w.state.sites.items; talks = w.state.talks.items; is_over = w.is_over } };

    ghost invariant = { λ w. w.is_over ≡ false → IsStanding w.state.sites.items w.state.talks.items };
}

impl World {
    /// A world of `count` replicas, 1 to 16, of the schema that the text declares. The keys, and all random words
    /// later, are those of the number: each replica has the key that six words of its own draw, so no two have one.
    pub fn new(
        alloc: Global,
        text: &[u8],
        count: u32,
        types: KeyTypes,
        number: u64,
    ) -> Result<World, WorldFault>
        ensures new { IfOk result (λ world. IsBegun is_luhn text.now count types number world) }
        ensures refused { IfErr result (λ why. IsWorldCause is_luhn text.now count why) }
    {
        one_schema();
        declared_is_sound();
        check_text(alloc, text)?;
        if count == 0 || count > REPLICAS {
            return Err(WorldFault::Limit);
        }
        let mut words = Words::new(number);
        let sites = sites_of(alloc, text, count, types, &mut words)?;
        let talks = no_talks(alloc)?;
        Ok(World {
            state: State {
                alloc,
                sites,
                talks,
                words,
            },
            is_over: false,
        })
    }

    /// One event happens, where it names something that it can happen to. Once memory has run out, in an event or for a
    /// disk, the world is over, and every further event answers that.
    ///
    /// A Make has operations that an update may hold: at most 64, of which `update_model::check_ops` is true.
    pub fn step(&mut self, event: &Event) -> Result<Stepped, AllocError>
        requires { HasForm event.now }
        ensures happens { IfOk result (λ answer. (w : WorldData) → ShowsWorld self.old w → (next : WorldData)
            × Happens is_luhn w event.now answer next × ShowsWorld self.new next) }
        ensures runs { OnOk result ((self.old.is_over ≡ false) × (self.new.is_over ≡ false)) }
        ensures over { OnErr result (self.new.is_over ≡ true) }
    {
        if self.is_over {
            return Err(AllocError);
        }
        let stepped = self.state.happen(event);
        if stepped.is_err() || self.state.starved() {
            self.is_over = true;
            return Err(AllocError);
        }
        stepped
    }

    /// The store of the replica with this number, where it is there and up.
    pub fn replica(&self, number: u32) -> Option<&Replica<MemDisk, Luhn, Luhn>>
        ensures { MatchOption result (is_up (slice_get self.now.sites number) ≡ false)
            (λ store. (site : SiteData) × (slice_get self.now.sites number ≡ Some site) × (site.is_down ≡ false)
            × (store.now ≡ site.store)) }
    {
        match self.state.sites.get(number as usize) {
            Some(site) => {
                if site.is_down() {
                    None
                } else {
                    Some(site.store())
                }
            }
            None => None,
        }
    }
}
