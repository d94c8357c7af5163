//! A report of each kind of line.

use std::alloc::{AllocError, Global};
use world_report::{
    Counts, Missed, ShownEnd, ShownReplica, ShownSession, push_missed, push_replicas, push_sessions,
};

const REPORT: &str = "line 9 none\nline 12 refused 4\nreplica 0 updates 2 heads 1 rows 2 0 void 3\n\
replica 1 down\nsession 0 done open\nsession 1 peer 9\nsession 3 full cut\nsession 4 store\n";

fn session(number: u32, first: ShownEnd, second: Option<ShownEnd>) -> ShownSession {
    ShownSession {
        number,
        first,
        second,
    }
}

/// Whether the report is as it should be.
fn is_printed(alloc: Global) -> Result<bool, AllocError> {
    let mut out = Vec::new(alloc);
    push_missed(&mut out, &Missed::NoSuch { line: 9 })?;
    push_missed(&mut out, &Missed::Refused { line: 12, cause: 4 })?;
    let mut replicas = Vec::new(alloc);
    let rows = Vec::from_slice(alloc, &[2, 0])?;
    replicas.push(ShownReplica::Up(Counts {
        updates: 2,
        heads: 1,
        rows,
        voids: 3,
    }))?;
    replicas.push(ShownReplica::Down)?;
    push_replicas(&mut out, replicas.as_slice())?;
    let sessions = [
        session(0, ShownEnd::Done, Some(ShownEnd::Open)),
        session(1, ShownEnd::Peer(9), None),
        session(3, ShownEnd::Full, Some(ShownEnd::Cut)),
        session(4, ShownEnd::Store, None),
    ];
    push_sessions(&mut out, &sessions)?;
    Ok(out.as_slice() == REPORT.as_bytes())
}

#[test]
fn each_kind_of_line(rt: HostRuntime) {
    assert!(rt; matches!(is_printed(rt.alloc()), Ok(true)));
}
