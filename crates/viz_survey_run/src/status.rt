ghost use Rattle.std.specs.Prelude.{◌≡◌};
ghost use Rattle.viz_survey_run.specs.Statuses.{answer_of_reply, answer_of_table, code_of};

use viz_replies::Answer;
use viz_tables::TableAnswer;

/// What kind of reply it is.
#[derive(Clone, Copy, Debug, PartialEq, Eq)]
pub enum SurveyAnswer {
    /// What was asked for was done.
    Done,
    /// The assertion is false at a world of the range.
    Violated,
    /// The job file is refused.
    JobRefused,
    /// The turns were too few.
    Undecided,
    /// The certificate file is refused.
    CertRefused,
    /// The list of rules is refused.
    ListRefused,
}

impl From<Answer> for SurveyAnswer {
    ghost use Rattle.std.specs.Prelude.{◌≡◌};
    ghost use Rattle.viz_survey_run.specs.Statuses.{answer_of_reply};

    ghost from_gives = { λ answer same. same ≡ answer_of_reply answer };

    fn from(answer: Answer) -> Self {
        match answer {
            Answer::Done => SurveyAnswer::Done,
            Answer::Violated => SurveyAnswer::Violated,
            Answer::JobRefused => SurveyAnswer::JobRefused,
            Answer::Undecided => SurveyAnswer::Undecided,
            Answer::CertRefused => SurveyAnswer::CertRefused,
        }
    }
}

impl From<TableAnswer> for SurveyAnswer {
    ghost use Rattle.std.specs.Prelude.{◌≡◌};
    ghost use Rattle.viz_survey_run.specs.Statuses.{answer_of_table};

    ghost from_gives = { λ answer same. same ≡ answer_of_table answer };

    fn from(answer: TableAnswer) -> Self {
        match answer {
            TableAnswer::Done => SurveyAnswer::Done,
            TableAnswer::Undecided => SurveyAnswer::Undecided,
            TableAnswer::JobRefused => SurveyAnswer::JobRefused,
            TableAnswer::ListRefused => SurveyAnswer::ListRefused,
        }
    }
}

/// How a run ends.
#[derive(Clone, Copy, Debug, PartialEq, Eq)]
pub enum SurveyStatus {
    /// The command was replied to.
    Replied(SurveyAnswer),
    /// The words are of no form.
    Usage,
    /// One of the files could not be read.
    ReadFault,
    /// The output could not be written.
    WriteFault,
    /// Want of memory.
    Memory,
}

impl SurveyStatus {
    /// The number that the program ends with.
    pub fn code(self) -> u8
        ensures { result ≡ code_of self }
    {
        match self {
            SurveyStatus::Replied(SurveyAnswer::Done) => 0,
            SurveyStatus::Replied(SurveyAnswer::Violated) => 1,
            SurveyStatus::Usage => 2,
            SurveyStatus::ReadFault => 3,
            SurveyStatus::WriteFault => 4,
            SurveyStatus::Replied(SurveyAnswer::JobRefused) => 5,
            SurveyStatus::Replied(SurveyAnswer::Undecided) => 6,
            SurveyStatus::Memory => 7,
            SurveyStatus::Replied(SurveyAnswer::CertRefused) => 8,
            SurveyStatus::Replied(SurveyAnswer::ListRefused) => 9,
        }
    }
}
