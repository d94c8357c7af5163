//! Laws of streams. Each function does nothing: its contract is a theorem for callers to cite.

ghost use Rattle.std.specs.Prelude.{◌≡◌, ◌++◌, ◌∷◌, ℕ, List};
ghost use Rattle.sync_frames.specs.declared.frame.Frame.{Frame as AnyFrame};
ghost use Rattle.sync_frames.specs.Stream.{IsBroken, Spells, Splits};

/// A stream splits into frames and a rest in one way, however it comes.
pub fn one_split()
    ensures { (stream : List ℕ) (frames others : List AnyFrame) (rest other : List ℕ)
        → Splits stream frames rest → Splits stream others other → (frames ≡ others) × (rest ≡ other) }
{}

/// One piece after another gives the frames of the whole stream.
pub fn pieces_join()
    ensures { (stream piece : List ℕ) (frames more : List AnyFrame) (rest last : List ℕ)
        → Splits stream frames rest → Splits (rest ++ piece) more last → Splits (stream ++ piece) (frames ++ more) last }
{}

/// What is no frame stays none, whatever follows: so a fault, too, is where it is however the stream comes.
pub fn faults_stay()
    ensures { (bytes more : List ℕ) → IsBroken bytes → IsBroken (bytes ++ more) }
{}

/// What spells a frame is read as this frame, and what stands behind it as before.
pub fn frames_are_read_again()
    ensures { (frame : AnyFrame) (bytes stream : List ℕ) (frames : List AnyFrame) (rest : List ℕ)
        → Spells frame bytes → Splits stream frames rest → Splits (bytes ++ stream) (frame ∷ frames) rest }
{}
