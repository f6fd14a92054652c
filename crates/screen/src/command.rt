// The commands on a screen (docs/GLASS.md).
ghost use Rattle.std.specs.Prelude.{◌≡◌};
ghost use Rattle.screen.specs.Commands.{call_of, number_of};

// A command that is one call on the memory.
#[derive(Clone, Copy, Debug, PartialEq, Eq)]
pub enum Call {
    Block,
    Change,
    Withdraw,
    Fold,
}

// The call by a command's number: any other than these three is a fold.
impl From<u32> for Call {
    ghost from_gives = { λ n c. c ≡ call_of n };

    fn from(number: u32) -> Call {
        match number {
            2 => Call::Block,
            3 => Call::Change,
            4 => Call::Withdraw,
            _ => Call::Fold,
        }
    }
}

// The command's number of a call.
impl From<Call> for u32 {
    ghost from_gives = { λ c n. n ≡ number_of c };

    fn from(call: Call) -> u32 {
        match call {
            Call::Block => 2,
            Call::Change => 3,
            Call::Withdraw => 4,
            Call::Fold => 5,
        }
    }
}

// A command that changes the memory: one call, or an undo, which is a call for each step.
#[derive(Clone, Copy, Debug, PartialEq, Eq)]
pub enum Act {
    One(Call),
    Undo,
}

// A command that only looks.
#[derive(Clone, Copy, Debug, PartialEq, Eq)]
pub enum Look {
    Show,
    Compare,
    Pad,
    Free,
    Who,
    Steps,
}

// Any command.
#[derive(Clone, Copy, Debug, PartialEq, Eq)]
pub enum Command {
    Begin, // A new screen.
    Changes(Act),
    Keep,
    Looks(Look),
}
