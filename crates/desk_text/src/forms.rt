//! The forms of the commands: the words with which each begins, and how many whole numbers follow.
ghost use Rattle.std.specs.Prelude.{◌≡◌};
ghost use Rattle.desk_text.specs.Forms.{form_name, form_numbers, count_of};

/// A form of a command.
#[derive(Clone, Copy)]
pub(crate) enum Form {
    Bar,
    Lift,
    RankProgramme,
    RankSlot,
    WithdrawProgramme,
    WithdrawSlot,
    RestoreProgramme,
    RestoreSlot,
    SlotOf,
    ProgrammeIn,
    Tally,
    Digit,
    Certificate,
    Judge,
    HandOver,
    Reopen,
    PlanPage,
    CertificatePage,
}

/// How many whole numbers follow the words of a form.
#[derive(Clone, Copy)]
pub(crate) enum Arguments {
    None,
    One,
    Two,
}

/// All forms.
pub(crate) const FORMS: [Form; 18] = [
    Form::Bar,
    Form::Lift,
    Form::RankProgramme,
    Form::RankSlot,
    Form::WithdrawProgramme,
    Form::WithdrawSlot,
    Form::RestoreProgramme,
    Form::RestoreSlot,
    Form::SlotOf,
    Form::ProgrammeIn,
    Form::Tally,
    Form::Digit,
    Form::Certificate,
    Form::Judge,
    Form::HandOver,
    Form::Reopen,
    Form::PlanPage,
    Form::CertificatePage,
];

impl Form {
    /// The words with which a line of this form begins.
    pub(crate) fn name(self) -> &'static str
        ensures { result.now ≡ form_name self }
    {
        match self {
            Form::Bar => "bar",
            Form::Lift => "lift",
            Form::RankProgramme => "rank programme",
            Form::RankSlot => "rank slot",
            Form::WithdrawProgramme => "withdraw programme",
            Form::WithdrawSlot => "withdraw slot",
            Form::RestoreProgramme => "restore programme",
            Form::RestoreSlot => "restore slot",
            Form::SlotOf => "slot of",
            Form::ProgrammeIn => "programme in",
            Form::Tally => "tally",
            Form::Digit => "digit",
            Form::Certificate => "certificate",
            Form::Judge => "judge",
            Form::HandOver => "hand over",
            Form::Reopen => "reopen",
            Form::PlanPage => "plan page",
            Form::CertificatePage => "certificate page",
        }
    }

    /// How many whole numbers follow them.
    pub(crate) fn arguments(self) -> Arguments
        ensures { count_of result ≡ form_numbers self }
    {
        match self {
            Form::Bar | Form::Lift | Form::RankProgramme | Form::RankSlot => Arguments::Two,
            Form::WithdrawProgramme | Form::WithdrawSlot => Arguments::One,
            Form::RestoreProgramme | Form::RestoreSlot => Arguments::One,
            Form::SlotOf | Form::ProgrammeIn => Arguments::One,
            Form::Tally | Form::Digit => Arguments::One,
            Form::Certificate | Form::Judge => Arguments::None,
            Form::HandOver | Form::Reopen => Arguments::None,
            Form::PlanPage | Form::CertificatePage => Arguments::None,
        }
    }
}
