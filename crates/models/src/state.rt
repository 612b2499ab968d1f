// Kinds of state.
ghost use Rattle.std.specs.Prelude.{◌≡◌};
ghost use Rattle.models.specs.Kinds.{Kind, Coding, Exact, state_reply, code_reply};

use refusals::Refusal;

// A kind of state: which of its values are states.
pub trait State: Copy {
    ghost kind: { Kind Self };

    // The value is a state.
    fn is_state(self) -> bool
        ensures { result ≡ kind.is self };
}

// A kind whose states have codes of 32 bits.
pub trait Coded: State {
    ghost coding: { Coding Self };

    // The code of a state, and none of another value.
    fn code(self) -> Option<u32>
        ensures value { result ≡ code_reply coding self }
        ensures agree { coding.is self ≡ Self.State.kind.is self };

    // The state that has the code.
    fn from_code(n: u32) -> Option<Self>
        ensures { result ≡ coding.back n };

    ghost exact: { Exact coding };
}

// The value, if it is a state.
pub(crate) fn ensure_state<S: State>(value: S) -> Result<S, Refusal>
    ensures { result ≡ state_reply S.kind value }
{
    value.is_state().then_some(value).ok_or(Refusal::Unknown)
}
