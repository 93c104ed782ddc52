// The questions that stop a request.
ghost use Rattle.std.specs.Prelude.{◌≡◌};
ghost use Rattle.requests.specs.declared.question.Question.TheVariants.{RequestType};
ghost use Rattle.requests.specs.Questions.{question_number, timer_question, part_stop};

use keys::refusal::PartRefusal;
use session::timers::TimerKind;
use ul_nas::message::UnknownRequestType;

// A question that was answered no, with its number.
#[derive(Clone, Copy, PartialEq, Eq, Debug)]
pub enum Question {
    // 1: is the request type 1 to 4?
    RequestType = 1,
    // 2: if it is an emergency one, are name and slice absent?
    EmergencyParts = 2,
    // 3: is the name lawful?
    Name = 3,
    // 4: is the slice lawful?
    Slice = 4,
    // 5: is the identity 1 to 15?
    Identity = 5,
    // 6: is the session INACTIVE?
    Inactive = 6,
    // 7: is no bar on its T3396 key?
    T3396 = 7,
    // 8: on its T3584 key?
    T3584 = 8,
    // 9: on its T3585 key?
    T3585 = 9,
    // 10: with its keys, are at most 32 claimed of each kind?
    Claimed = 10,
    // 11: were fewer than 1,000,000,000 let out since switch-on?
    LetOut = 11,
    // 12: do fewer than eight messages wait?
    Waiting = 12,
    // 13: is the session ACTIVE?
    Active = 13,
}

impl Question {
    // The number of the question.
    pub fn number(self) -> u8
        ensures { result ≡ question_number self }
    {
        self as u8
    }
}

impl From<TimerKind> for Question {
    ghost from_gives = { λ x y. y ≡ timer_question x };

    // The question of a timer.
    fn from(kind: TimerKind) -> Question {
        match kind {
            TimerKind::T3396 => Question::T3396,
            TimerKind::T3584 => Question::T3584,
            TimerKind::T3585 => Question::T3585,
        }
    }
}

impl From<PartRefusal> for Question {
    ghost from_gives = { λ x y. y ≡ part_stop x };

    // The question of a part that is not lawful.
    fn from(refusal: PartRefusal) -> Question {
        match refusal {
            PartRefusal::Name => Question::Name,
            PartRefusal::Slice => Question::Slice,
        }
    }
}

impl From<UnknownRequestType> for Question {
    ghost from_gives = { λ x y. y ≡ RequestType };

    fn from(_: UnknownRequestType) -> Question {
        Question::RequestType
    }
}
