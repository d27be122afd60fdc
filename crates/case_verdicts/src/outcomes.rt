//! Outcomes of runs: those that came, and those that are wanted.

/// The outcome of a run.
#[derive(Drop)]
pub struct Outcome {
    /// The exit code of the process, followed by the notes.
    pub end: String,
    /// What was written.
    pub text: String,
    /// The bytes that were sent over the link.
    pub answers: Vec<u8>,
}

/// The wanted outcome of a case.
#[derive(Drop)]
pub enum Wanted {
    /// Exactly this outcome.
    Whole(Outcome),
    /// This end, and a text with these lines.
    Lines(Part),
}

/// What is known of a run whose text nobody wrote down.
#[derive(Drop)]
pub struct Part {
    /// How the run must end.
    pub end: String,
    /// Lines that must stand in the text, in this order.
    pub lines: String,
    /// How many lines the text must have, if that is known.
    pub count: Option<usize>,
}
