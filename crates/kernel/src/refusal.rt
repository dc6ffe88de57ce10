// Why a call on a list is refused.
ghost use Rattle.kernel.specs.Meets.{NumberMeets};

// The refusals of calls on lists, under the paper's numbers: the events are no whole records; the answers are shorter; the tables or the state.
#[derive(Clone, Copy, Debug, PartialEq, Eq)]
pub enum ListRefusal {
    EventsLength = 27,
    AnswersShort = 28,
    StateRefused = 29,
}

impl ListRefusal {
    pub fn number(self) -> u8
        ensures { NumberMeets self result }
    {
        self as u8
    }
}
