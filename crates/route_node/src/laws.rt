//! Laws of streams of frames. A call of a law gives the caller's proof what the law says.
ghost use Rattle.std.specs.Prelude.{ℕ, ◌≡◌, List};
ghost use Rattle.wire_frames.specs.declared.frames.Frame.{Frame};
ghost use Rattle.route_node.specs.Streams.{StreamComesTo, Ending};
ghost use Rattle.route_node.specs.Who.{Who};

/// For any bytes, the frames that are taken from the front, and how the stream ends after them, are determined.
pub fn a_stream_comes_to_one_thing()
    ensures { (who : Who) (bytes : List ℕ) (frames others : List Frame) (a b : Ending) →
        StreamComesTo who bytes frames a → StreamComesTo who bytes others b → (frames ≡ others) × (a ≡ b) }
{}
