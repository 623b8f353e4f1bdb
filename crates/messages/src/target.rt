// Targets and their bytes.
ghost use Rattle.std.specs.Prelude.{◌≡◌};
ghost use Rattle.messages.specs.Target.{DecodesState, DecodesTarget, lawful_target, state_number, target_byte};

use crate::parts::{State, Target, UnknownState, UnknownTarget};
use topics::qos::Qos;

impl TryFrom<u8> for State {
    type Error = UnknownState;

    ghost try_from_gives = { DecodesState };

    // A match from each number to its name: nothing derives it.
    fn try_from(n: u8) -> Result<State, UnknownState> {
        match n {
            1 => Ok(State::Waiting),
            2 => Ok(State::Sent),
            3 => Ok(State::Released),
            _ => Err(UnknownState(n)),
        }
    }
}

impl State {
    /// Its number, 1 to 3.
    pub fn number(self) -> u8
        ensures answer { result ≡ state_number self }
    {
        self as u8
    }
}

impl TryFrom<u8> for Target {
    type Error = UnknownTarget;

    ghost try_from_gives = { DecodesTarget };

    #[tactic(auto, unfolding(crate::specs::Target::target_of))]
    fn try_from(b: u8) -> Result<Target, UnknownTarget> {
        let qos = Qos::try_from(b / 16).map_err(|_| UnknownTarget(b))?;
        let state = State::try_from(b % 16).map_err(|_| UnknownTarget(b))?;
        let target = Target { qos, state };
        if !target.is_lawful() {
            return Err(UnknownTarget(b));
        }
        Ok(target)
    }
}

impl Target {
    /// Whether its quality of service knows its state: 0 only waiting, 1 also sent, 2 also released.
    pub fn is_lawful(self) -> bool
        ensures answer { result ≡ lawful_target self }
    {
        self.state.number() <= self.qos.number() + 1
    }

    /// Its byte in a row: quality of service × 16 + state.
    pub fn byte(self) -> u8
        ensures answer { result ≡ target_byte self }
    {
        self.qos.number() * 16 + self.state.number()
    }
}
