//! A key whose leaves sign once each, whatever stops the program: a [`KeyStore`] on two disks.
//!
//! The part Key keeps what the key is made from: its types, its identifier and its seed. The part Used
//! has a byte for each of its indices. [`KeyStore::reserve`] hands out the least index that is not used
//! and has it on the disk first, so no index is handed out twice, over crashes at any moment and any
//! number of openings; [`no_index_twice_ever`] says so of whole lives, from before there is a key.
//! [`KeyStore::sign`] signs with such an
//! index only. [`KeyStore::create`] draws a key where there is none, and [`KeyStore::open_key`] opens it.
//!
//! ```text
//! let types = KeyTypes { lms: LmsType::H10, ots: OtsType::W8 };
//! let mut store = KeyStore::create(&OneThread, alloc, key, used, types, &mut random)?;
//! let mut signature = vec![in alloc; 0; signature_len(&store.public()) as usize]?;
//! let index = store.sign(&c, b"message", &mut signature)?;
//! let (key, used) = store.into_disks();
//! let store = KeyStore::open_key(&OneThread, alloc, key, used)?;   // the index stays used
//! ```
//!
//! Two programs that open the same parts at once could hand an index out twice: keeping the second one
//! out is for the shelf that hands the disks out. It encrypts nothing: whoever reads the part Key has the
//! key.
#![tactic(auto)]

mod create;
mod faults;
mod indices;
mod laws;
mod open;
mod opened;
mod reserve;
mod seed;
mod store;

pub use faults::{CreateKey, CreateKeyKind, KeyFault, KeyFaultKind};
pub use laws::no_index_twice_ever;
pub use reserve::Reserve;
pub use store::KeyStore;
