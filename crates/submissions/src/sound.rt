// That there is a test that says yes exactly for the sound transactions, and that there is one alone. Nothing here runs.
ghost use Rattle.submissions.specs.SoundTest.{IsSoundLaw, OneTestLaw, SoundTestLaw};

/// `is_sound`, which has a part for each reason to refuse, says yes exactly for the sound transactions, whatever the verdicts.
pub fn is_sound_law()
    ensures { IsSoundLaw }
{}

/// So whatever the verdicts, there is a test that says yes exactly for the sound transactions.
pub fn sound_test_law()
    ensures { SoundTestLaw }
{}

/// Two such tests are one.
pub fn one_test_law()
    ensures { OneTestLaw }
{}
