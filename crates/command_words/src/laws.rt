//! Laws of the definitions. Each function does nothing: its contract is a theorem for callers to cite.

ghost use Rattle.std.specs.Prelude.{◌≡◌, ◌↔◌, List, None, Some};
ghost use Rattle.clap.specs.Words.{Text};
ghost use Rattle.command_words.specs.Requests.{RequestText, Asks};
ghost use Rattle.command_words.specs.Commands.{request_of};
ghost use Rattle.command_words.specs.NetRequests.{AsksNet, NetText};
ghost use Rattle.command_words.specs.NetCommands.{net_request_of};
ghost use Rattle.command_words.specs.SealRequests.{AsksSeal, SealText};
ghost use Rattle.command_words.specs.SealCommands.{seal_request_of};
ghost use Rattle.command_words.specs.WatchRequests.{AsksWatch, WatchText};
ghost use Rattle.command_words.specs.WatchCommands.{watch_request_of};
ghost use Rattle.command_words.specs.AuditRequests.{AsksAudit, AuditText};
ghost use Rattle.command_words.specs.AuditCommands.{audit_request_of};
ghost use Rattle.command_words.specs.WorldRequests.{AsksWorld, WorldText};
ghost use Rattle.command_words.specs.WorldCommands.{world_request_of};
ghost use Rattle.command_words.specs.ImportRequests.{import_request_of};
ghost use Rattle.command_words.specs.LookRequests.{LookText, look_request_of};

/// The request that is read from words is the one that the rules tell.
pub fn requests_are_by_rule()
    ensures { (words : List Text) (request : RequestText) → Asks words request ↔ (request_of words ≡ Some request) }
{}

/// Words ask for at most one thing.
pub fn one_request()
    ensures { (words : List Text) (request other : RequestText) → Asks words request → Asks words other
        → request ≡ other }
{}

/// The request for a net that is read from words is the one that the rules tell.
pub fn net_requests_are_by_rule()
    ensures { (words : List Text) (request : NetText) → AsksNet words request ↔ (net_request_of words ≡ Some request) }
{}

/// Words ask for at most one thing over a net.
pub fn one_net_request()
    ensures { (words : List Text) (request other : NetText) → AsksNet words request → AsksNet words other
        → request ≡ other }
{}

/// Words that ask for something over a net ask for nothing without one.
pub fn no_other_request()
    ensures { (words : List Text) (request : RequestText) (other : NetText) → Asks words request → AsksNet words other
        → ⊥ }
{}

/// The request about seals that is read from words is the one that the rules tell.
pub fn seal_requests_are_by_rule()
    ensures { (words : List Text) (request : SealText) → AsksSeal words request
        ↔ (seal_request_of words ≡ Some request) }
{}

/// Words ask for at most one thing about seals.
pub fn one_seal_request()
    ensures { (words : List Text) (request other : SealText) → AsksSeal words request → AsksSeal words other
        → request ≡ other }
{}

/// The request to watch a query that is read from words is the one that the rules tell.
pub fn watch_requests_are_by_rule()
    ensures { (words : List Text) (request : WatchText) → AsksWatch words request
        ↔ (watch_request_of words ≡ Some request) }
{}

/// Words ask to watch at most one query, in one way.
pub fn one_watch_request()
    ensures { (words : List Text) (request other : WatchText) → AsksWatch words request → AsksWatch words other
        → request ≡ other }
{}

/// The request about keys that signed twice that is read from words is the one that the rules tell.
pub fn audit_requests_are_by_rule()
    ensures { (words : List Text) (request : AuditText) → AsksAudit words request
        ↔ (audit_request_of words ≡ Some request) }
{}

/// Words ask for at most one thing about keys that signed twice.
pub fn one_audit_request()
    ensures { (words : List Text) (request other : AuditText) → AsksAudit words request → AsksAudit words other
        → request ≡ other }
{}

/// The request about worlds that is read from words is the one that the rules tell.
pub fn world_requests_are_by_rule()
    ensures { (words : List Text) (request : WorldText) → AsksWorld words request
        ↔ (world_request_of words ≡ Some request) }
{}

/// Words ask for at most one thing about worlds.
pub fn one_world_request()
    ensures { (words : List Text) (request other : WorldText) → AsksWorld words request → AsksWorld words other
        → request ≡ other }
{}

/// Words that ask for something about seals ask for nothing else.
pub fn nothing_beside_seals()
    ensures alone { (words : List Text) (request : RequestText) (other : SealText) → Asks words request
        → AsksSeal words other → ⊥ }
    ensures over_net { (words : List Text) (request : NetText) (other : SealText) → AsksNet words request
        → AsksSeal words other → ⊥ }
    ensures watched { (words : List Text) (request : WatchText) (other : SealText) → AsksWatch words request
        → AsksSeal words other → ⊥ }
    ensures audited { (words : List Text) (request : AuditText) (other : SealText) → AsksAudit words request
        → AsksSeal words other → ⊥ }
{}

/// Words that ask to watch a query ask for nothing else.
pub fn nothing_beside_watching()
    ensures alone { (words : List Text) (request : RequestText) (other : WatchText) → Asks words request
        → AsksWatch words other → ⊥ }
    ensures over_net { (words : List Text) (request : NetText) (other : WatchText) → AsksNet words request
        → AsksWatch words other → ⊥ }
    ensures audited { (words : List Text) (request : AuditText) (other : WatchText) → AsksAudit words request
        → AsksWatch words other → ⊥ }
{}

/// Words that ask for something about keys that signed twice ask for nothing else.
pub fn nothing_beside_audits()
    ensures alone { (words : List Text) (request : RequestText) (other : AuditText) → Asks words request
        → AsksAudit words other → ⊥ }
    ensures over_net { (words : List Text) (request : NetText) (other : AuditText) → AsksNet words request
        → AsksAudit words other → ⊥ }
{}

/// Words that ask for something about worlds ask for nothing else.
pub fn nothing_beside_worlds()
    ensures alone { (words : List Text) (request : RequestText) (other : WorldText) → Asks words request
        → AsksWorld words other → ⊥ }
    ensures over_net { (words : List Text) (request : NetText) (other : WorldText) → AsksNet words request
        → AsksWorld words other → ⊥ }
    ensures sealed { (words : List Text) (request : SealText) (other : WorldText) → AsksSeal words request
        → AsksWorld words other → ⊥ }
    ensures watched { (words : List Text) (request : WatchText) (other : WorldText) → AsksWatch words request
        → AsksWorld words other → ⊥ }
    ensures audited { (words : List Text) (request : AuditText) (other : WorldText) → AsksAudit words request
        → AsksWorld words other → ⊥ }
{}

/// Words that ask for something else ask for nothing that looks at a store.
pub fn nothing_beside_looks()
    ensures alone { (words : List Text) (request : RequestText) → Asks words request → look_request_of words ≡ None }
    ensures over_net { (words : List Text) (request : NetText) → AsksNet words request
        → look_request_of words ≡ None }
    ensures sealed { (words : List Text) (request : SealText) → AsksSeal words request
        → look_request_of words ≡ None }
    ensures watched { (words : List Text) (request : WatchText) → AsksWatch words request
        → look_request_of words ≡ None }
    ensures audited { (words : List Text) (request : AuditText) → AsksAudit words request
        → look_request_of words ≡ None }
    ensures of_worlds { (words : List Text) (request : WorldText) → AsksWorld words request
        → look_request_of words ≡ None }
{}

/// Words that ask for something else ask for nothing that brings updates into a directory.
pub fn nothing_beside_imports()
    ensures alone { (words : List Text) (request : RequestText) → Asks words request → import_request_of words ≡ None }
    ensures over_net { (words : List Text) (request : NetText) → AsksNet words request
        → import_request_of words ≡ None }
    ensures sealed { (words : List Text) (request : SealText) → AsksSeal words request
        → import_request_of words ≡ None }
    ensures watched { (words : List Text) (request : WatchText) → AsksWatch words request
        → import_request_of words ≡ None }
    ensures audited { (words : List Text) (request : AuditText) → AsksAudit words request
        → import_request_of words ≡ None }
    ensures of_worlds { (words : List Text) (request : WorldText) → AsksWorld words request
        → import_request_of words ≡ None }
    ensures looking { (words : List Text) (request : LookText) → look_request_of words ≡ Some request
        → import_request_of words ≡ None }
{}
