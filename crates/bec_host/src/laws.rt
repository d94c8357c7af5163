//! Laws of the generator. Each function does nothing: its contract is a theorem for callers to cite.

ghost use Rattle.std.specs.Prelude.{◌≡◌, ◌+◌, ◌%◌, ◌^◌};
ghost use Rattle.rand_core.specs.Stream.{fill_bytes};
ghost use Rattle.rand_core.specs.Steps.{stream_of};
ghost use Rattle.bec_host.specs.HashStream.{HashState, block_bytes, hash_steps};

/// The next 32 bytes from the start of a block are the block, and the next block follows.
pub fn blocks_follow_one_another()
    ensures { (s : HashState) → s.used ≡ 0 → fill_bytes 32 (stream_of hash_steps s)
        ≡ (block_bytes s.key s.number, stream_of hash_steps (record s { number = (s.number + 1) % 2 ^ 64; used = 0 })) }
{}
