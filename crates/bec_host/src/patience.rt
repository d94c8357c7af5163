//! How long a peer is waited for.

ghost use Rattle.std.specs.Prelude.{◌≡◌, ◌+◌, ◌-◌, ◌/◌, ◌^◌, min};
ghost use Rattle.bec_host.specs.declared.patience.TheConstants.{FRAME_LIMIT, LINK_LIMIT, TAKE_LIMIT, MOVED, TAKEN};

/// How long a peer is waited for until a frame of it is whole, in milliseconds.
const FRAME_LIMIT: u64 = 60_000;

/// How long it is waited for in all, in milliseconds, beyond the time for what goes over the link.
const LINK_LIMIT: u64 = 600_000;

/// How long it is waited for until it takes what it is sent, in milliseconds.
const TAKE_LIMIT: u64 = 60_000;

/// For how many bytes that go over the link there is a millisecond more. A peer may have to verify what it took before
/// it answers.
const MOVED: u64 = 32;

/// For how many bytes that a peer took there is a millisecond more until it takes the next, up to the limit.
const TAKEN: u64 = 4;

/// How long a peer will still be waited for, in milliseconds.
#[derive(Drop)]
pub(crate) struct Patience {
    /// Until a frame of it is whole.
    frame: u64,
    /// In all.
    link: u64,
    /// Until it takes what it is sent.
    take: u64,
}

impl Patience {
    /// With a peer of which nothing came yet.
    pub(crate) fn new() -> Patience
        ensures frame { result.frame ≡ FRAME_LIMIT }
        ensures link { result.link ≡ LINK_LIMIT }
        ensures take { result.take ≡ TAKE_LIMIT }
    {
        Patience {
            frame: FRAME_LIMIT,
            link: LINK_LIMIT,
            take: TAKE_LIMIT,
        }
    }

    /// How long the next read may wait.
    pub(crate) fn for_read(&self) -> u64
        ensures { result ≡ min self.now.frame self.now.link }
    {
        self.frame.min(self.link)
    }

    /// How long the next write may wait.
    pub(crate) fn for_write(&self) -> u64
        ensures { result ≡ self.now.take }
    {
        self.take
    }

    /// A read waited so long, and gave so many bytes.
    pub(crate) fn has_read(&mut self, time: u64, count: u64)
        ensures frame { self.new.frame ≡ self.old.frame - time }
        ensures link { self.new.link ≡ min ((self.old.link - time) + count / MOVED) (2 ^ 64 - 1) }
        ensures take { self.new.take ≡ self.old.take }
    {
        self.frame = self.frame.saturating_sub(time);
        let left = self.link.saturating_sub(time);
        self.link = left.saturating_add(count / MOVED);
    }

    /// A write waited so long, and the peer took so many bytes of it.
    pub(crate) fn has_written(&mut self, time: u64, count: u64)
        ensures frame { self.new.frame ≡ min (self.old.frame + count / MOVED) (2 ^ 64 - 1) }
        ensures link { self.new.link ≡ min (self.old.link + count / MOVED) (2 ^ 64 - 1) }
        ensures take { self.new.take ≡ min (min ((self.old.take - time) + count / TAKEN) (2 ^ 64 - 1)) TAKE_LIMIT }
    {
        self.frame = self.frame.saturating_add(count / MOVED);
        self.link = self.link.saturating_add(count / MOVED);
        let left = self.take.saturating_sub(time);
        self.take = left.saturating_add(count / TAKEN).min(TAKE_LIMIT);
    }

    /// A frame of the peer is whole.
    pub(crate) fn frame_came(&mut self)
        ensures frame { self.new.frame ≡ FRAME_LIMIT }
        ensures link { self.new.link ≡ self.old.link }
        ensures take { self.new.take ≡ self.old.take }
    {
        self.frame = FRAME_LIMIT;
    }
}
