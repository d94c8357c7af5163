//! The program `bec`: it makes the real objects, calls [`front::run`], and ends with its status. What a refusal means
//! and what to do it says on standard error, unless the environment has `BEC_EXPLAIN=0`. `BEC_DIRECTORY` there is the
//! directory that it then names.
#![tactic(auto)]

use bec_bytes::write_all_of;
use bec_host::{
    Access, FileShelf, HashRng, HostSink, HostSource, TcpNet, hold_closed_streams, wanted_access,
    words,
};
use explained::{Listening, Recording, kept_bytes, tell};
use front::{only_reads, run};
use outcomes::Outside;
use outcomes::status::{OUT_OF_MEMORY, STREAM_FAULT};
use std::process::ExitCode;
use std::random::RandomSource;

fn main(rt: HostRuntime) -> ExitCode {
    let Ok(_held) = hold_closed_streams(&rt) else {
        return ExitCode::from(STREAM_FAULT);
    };
    let mut key = [0; 32];
    if rt.fill_bytes(&mut key).is_err() {
        return ExitCode::from(STREAM_FAULT);
    }
    let (files, sockets): (Result<_, _>, Result<_, _>) = (rt.clone(), rt.clone());
    let input = HostSource::new(rt.alloc(), rt.stdin());
    let (Ok(words), Ok(files), Ok(sockets), Ok(input)) = (words(&rt), files, sockets, input) else {
        return ExitCode::from(OUT_OF_MEMORY);
    };
    let access = if only_reads(&words) {
        Access::Reading
    } else {
        wanted_access(&rt)
    };
    let limit = kept_bytes(&rt, &words);
    let mut outside = Outside {
        shelf: FileShelf::new(files, access, rt.stderr()),
        random: HashRng::new(key),
        input: Recording::new(rt.alloc(), input, limit),
    };
    let mut net = TcpNet::new(sockets, rt.stderr());
    let mut output = Listening::new(rt.alloc(), HostSink::new(rt.stdout()));
    let ended = run(&rt, rt.alloc(), &words, &mut outside, &mut net, &mut output);
    let mut errors = HostSink::new(rt.stderr());
    if write_all_of(&mut errors, &ended.beside).is_err() {
        return ExitCode::from(STREAM_FAULT);
    }
    tell(
        &rt,
        &mut errors,
        &words,
        ended.status,
        &outside.input,
        &output,
    );
    ExitCode::from(ended.status)
}
