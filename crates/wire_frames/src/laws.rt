//! Laws of framing on which other crates rest. The calls do nothing: their contracts are the laws.

ghost use Rattle.std.specs.Prelude.{◌≡◌, ◌^◌, ◌<◌, List, ℕ};
ghost use Rattle.wire_frames.specs.Framing.{Framed};
ghost use Rattle.wire_frames.specs.Framers.{FramerParts};
ghost use Rattle.wire_frames.specs.Calls.{Call, pieces_fed, bodies_given, StandsFor};
ghost use Rattle.wire_frames.specs.Cuts.{StoppedAt, StoppedAlike};
ghost use Rattle.wire_frames.specs.Holding.{IsPaced, HoldsLittle};

/// A stream is framed in one way.
pub fn one_framing()
    ensures { (limit : ℕ) (a b : List (List ℕ)) (r t stream : List ℕ) → limit < 2 ^ 32
        → Framed limit a r stream → Framed limit b t stream → (a ≡ b) × (r ≡ t) }
{}

/// However a stream is cut into pieces: two framers of one limit that were fed the same bytes, and
/// have answered `More` or `TooLong`, gave the same bodies and the same answer, with the same place
/// and length, and keep the same rest at `More`.
pub fn however_cut()
    ensures { (first limit : ℕ) (p q : FramerParts) (x y : Call) (a b : List Call) → limit < 2 ^ 32
        → StoppedAt first limit p x a → StoppedAt first limit q y b
        → pieces_fed a ≡ pieces_fed b → StoppedAlike p q x y (bodies_given a) (bodies_given b) }
{}

/// Where `next` answered `More` or `TooLong` between each piece and the following one, the buffer
/// holds at most the limit, 3 bytes and the latest piece.
pub fn holds_little()
    ensures { (first : ℕ) (parts : FramerParts) (calls : List Call) → StandsFor first parts calls
        → IsPaced calls → HoldsLittle first calls parts.held }
{}
