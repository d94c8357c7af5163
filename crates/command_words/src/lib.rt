//! The words of the program's command line: what they ask for.
//!
//! [`parse_request`] reads all words, of which the first names the command, and answers the [`Request`] with its
//! arguments, or that the words are no command. [`parse_net_request`] does so for the two commands that need a net, and
//! answers the [`NetRequest`]; [`parse_seal_request`] for those about seals, [`parse_watch_request`] for the one that
//! watches a query, [`parse_audit_request`] for those about keys that signed twice, [`parse_world_request`] for those
//! about worlds, [`parse_look_request`] for those that look at a store and change nothing, and [`parse_import_request`]
//! for those that bring updates into a directory. No words ask for things of two of these kinds. Arguments are read by one simple command of `clap`: `--x V` and `--x=V` are the same, options
//! may stand among the positions, and `--` ends them. Each option stands once at most.
//!
//! ```text
//! heads [DIR]
//! check
//! dump [DIR] [--json]
//! init DIR
//! keygen DIR [--height 5,10,15] [--width 1,2,4,8]
//! apply DIR [--note TEXT]
//! join DIR
//! export DIR [--updates]
//! query DIR TEXT [--json]
//! merge DIR DIR
//! notes DIR
//!
//! sync DIR ADDR
//! serve DIR ADDR --sessions 1..8
//!
//! hsskey DIR [--height 5,10] [--width 1,2,4,8]
//! seal DIR
//! unseal KEY SIG
//!
//! watch DIR TEXT [--every 1..4096]
//!
//! audit DIR
//! confirm
//!
//! world [--audit]
//! demo NUMBER 4..4000
//!
//! draw [DIR] [--dot]
//! log [DIR] [--rows] [--full] [--json]
//! show DIR ID [--full] [--json]
//! who DIR ROW [--full] [--json]
//! diff DIR OTHER [--full] [--json]
//! page DIR
//! status DIR
//! schema DIR
//! records DIR
//! csv DIR TEXT
//! key DIR
//!
//! import DIR
//! clone FROM DIR
//! ```
//!
//! Which words are which request is told by rules (`Asks` in specs/Requests, `AsksNet` in specs/NetRequests, and so
//! on), and for the last two kinds by a function (`look_request_of` in specs/LookRequests, `import_request_of` in
//! specs/ImportRequests). It opens nothing:
//! whether a directory is there, or anyone at an address, is not judged here.
#![tactic(auto)]

mod argument;
mod audit_request;
mod audit_requests;
mod given;
mod import_request;
mod import_requests;
mod laws;
mod look_request;
mod look_requests;
mod net_request;
mod net_requests;
mod reading;
mod request;
mod requests;
mod seal_request;
mod seal_requests;
mod watch_request;
mod watch_requests;
mod world_request;
mod world_requests;

pub use audit_request::AuditRequest;
pub use audit_requests::parse_audit_request;
pub use import_request::ImportRequest;
pub use import_requests::parse_import_request;
pub use laws::{
    audit_requests_are_by_rule, net_requests_are_by_rule, no_other_request, nothing_beside_audits,
    nothing_beside_imports, nothing_beside_looks, nothing_beside_seals, nothing_beside_watching,
    nothing_beside_worlds, one_audit_request, one_net_request, one_request, one_seal_request,
    one_watch_request, one_world_request, requests_are_by_rule, seal_requests_are_by_rule,
    watch_requests_are_by_rule, world_requests_are_by_rule,
};
pub use look_request::{Listing, LookRequest, Question};
pub use look_requests::parse_look_request;
pub use net_request::NetRequest;
pub use net_requests::parse_net_request;
pub use request::Request;
pub use requests::parse_request;
pub use seal_request::SealRequest;
pub use seal_requests::parse_seal_request;
pub use watch_request::WatchRequest;
pub use watch_requests::parse_watch_request;
pub use world_request::WorldRequest;
pub use world_requests::parse_world_request;
