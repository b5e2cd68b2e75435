// The parts of a plan.
ghost use Rattle.std.specs.Prelude.{◌≡◌};
ghost use Rattle.live_plan.specs.Said.{is_setup as is_setup_of, is_workers as is_workers_of, is_end as is_end_of};

/// The part of a plan in which a line stands: the setup comes first, the workers' part behind `threads`, the end behind
/// `join`. This project's own.
#[derive(Clone, Copy, Debug, PartialEq, Eq)]
pub enum Part {
    /// What is done before the workers start.
    Setup,
    /// What the workers do.
    Workers,
    /// What is done when the workers have ended.
    End,
}

impl Part {
    /// Whether it is the setup.
    pub fn is_setup(self) -> bool
        ensures { result ≡ is_setup_of self }
    {
        matches!(self, Part::Setup)
    }

    /// Whether it is the workers' part.
    pub fn is_workers(self) -> bool
        ensures { result ≡ is_workers_of self }
    {
        matches!(self, Part::Workers)
    }

    /// Whether it is the end.
    pub fn is_end(self) -> bool
        ensures { result ≡ is_end_of self }
    {
        matches!(self, Part::End)
    }
}
