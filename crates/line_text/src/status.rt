// The status that the process ends with.
ghost use Rattle.std.specs.Prelude.{◌≡◌};
ghost use Rattle.line_text.specs.Faults.{status_of};

use cbdc_types::Answer;

/// The status of an answer: 0 for Ok, and no other answer has 0.
pub fn status_code(answer: &Answer) -> u8
    ensures { result ≡ status_of answer.now }
{
    match answer {
        Answer::Ok => 0,
        Answer::BadWords => 2,
        Answer::BadInput { .. } | Answer::TooMuch { .. } => 3,
        Answer::NotReady(_) | Answer::Foreign { .. } | Answer::NotEmpty(_) => 4,
        Answer::Full { .. } => 5,
        Answer::Unsound { .. } => 6,
        Answer::ClockEnd { .. } => 7,
        Answer::Damaged { .. } => 8,
        Answer::ReadFault { .. } => 10,
        Answer::WriteFault => 11,
        Answer::DiskFault(_) => 12,
        Answer::Memory => 13,
    }
}
