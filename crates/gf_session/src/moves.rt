//! States, what a choice leads to, and the way back.
ghost use Rattle.std.specs.Prelude.{◌≡◌, IfOk, IfErr};
ghost use Rattle.gf_session.specs.Sessions.{Rules};
ghost use Rattle.gf_session.specs.Moves.{IsAcrossAt};

/// What a session goes over: states, of which each offers choices by their numbers from 0 on, and steps, by which a choice can be undone.
///
/// A value holds what its calls need beside the state, as a budget. Equal states are the same state. A session keeps the steps that it
/// took and the state where it is, and no other state.
pub trait Moves {
    /// A state.
    type State: Drop;

    /// What leads from a state to the one across, and back.
    type Step: Drop;

    /// What a call may be refused by.
    type Error: Drop;

    /// What is a state.
    ghost is_state: { Self → Self.State → Type 0 };

    /// Where the choice of a number leads, which numbers lead nowhere, and what is told of a state with so many steps behind it.
    ghost rules: { Self → Rules Self.State };

    /// The step leads from the first state to the second.
    ghost joins: { Self → Self.State → Self.Step → Self.State → Type 0 };

    /// What a call at a state may be refused by.
    ghost refuses: { Self → Self.State → Self.Error → Type 0 };

    /// The state across by the choice of this number, and the step there; none where this number and all greater ones lead nowhere. No
    /// state is across by the last value of a `u64`, which stands for all numbers from it on.
    fn cross(
        &self,
        here: &Self::State,
        number: u64,
    ) -> Result<Option<(Self::Step, Self::State)>, Self::Error>
        requires { is_state self.now here.now }
        ensures ok { IfOk result (IsAcrossAt (rules self.now) (joins self.now) (is_state self.now) here.now number) }
        ensures err { IfErr result (refuses self.now here.now) };

    /// The state from which the step led here.
    fn back(&self, here: &Self::State, step: &Self::Step) -> Result<Self::State, Self::Error>
        requires state { is_state self.now here.now }
        requires joined { (before : Self.State) × joins self.now before step.now here.now }
        ensures ok { IfOk result (λ p. (before : Self.State) → joins self.now before step.now here.now → p ≡ before) }
        ensures state { IfOk result (is_state self.now) }
        ensures err { IfErr result (refuses self.now here.now) };

    /// What is told of a state with so many steps behind it, its last line feed too.
    fn tell(&self, here: &Self::State, behind: usize) -> Result<Vec<u8>, Self::Error>
        requires { is_state self.now here.now }
        ensures ok { IfOk result (λ text. (rules self.now).IsTold here.now behind text.items) }
        ensures err { IfErr result (refuses self.now here.now) };
}
