//! What a step of the library is to those who see the abstract system.

/// What a step of a service, of which each makes one call, has come to.
#[derive(Clone, Copy, Debug, PartialEq, Eq)]
pub enum Progress {
    /// Nothing that anybody sees: it goes on.
    Hidden,
    /// It has made a step of the abstract system, and goes on.
    Visible,
    /// Nothing that anybody sees: it waits for another environment, and gives up its turn by its next step.
    Waited,
    /// It has made a step of the abstract system, and the program goes on.
    Finished,
    /// It has made a step of the abstract system, and the environment is gone.
    Ended,
}
