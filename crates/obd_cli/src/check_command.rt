// The answer of the command `check`.
ghost use Rattle.std.specs.Prelude.{◌≡◌, ◌++◌, ◌<◌, ◌^◌, true, length, IfOk, OnOk};
ghost use Rattle.witness_check.specs.Checked.{checked};
ghost use Rattle.obd_cli.specs.CheckAnswer.{answer_word, bad_line, check_answer, reason_word, valid_line};
ghost use Rattle.obd_cli.specs.Answers.{has_text};

use crate::status::{Answer, Status};
use obd_base::{NoMemory, Text};
use std::alloc::Global;
use witness_check::{Answer as Found, Checked, Reason, check};

/// The word for an answer. Constant time.
pub(crate) fn answer_word(answer: Found) -> &'static str
    ensures { result.now ≡ answer_word answer }
{
    match answer {
        Found::Zero => "zero",
        Found::Nonzero => "nonzero",
    }
}

// The word for a reason.
fn reason_word(reason: Reason) -> &'static str
    ensures { result.now ≡ reason_word reason }
{
    match reason {
        Reason::Form => "form",
        Reason::Page => "page",
        Reason::Limit => "limit",
        Reason::Curve => "curve",
        Reason::Slide => "slide",
        Reason::Twist => "twist",
        Reason::Basis => "basis",
        Reason::Word => "word",
        Reason::Drawing => "drawing",
        Reason::Finger => "finger",
        Reason::Final => "final",
        Reason::Nice => "nice",
        Reason::Generators => "generators",
        Reason::Contact => "contact",
        Reason::Pivot => "pivot",
        Reason::Rank => "rank",
        Reason::Homology => "homology",
        Reason::Verdict => "verdict",
    }
}

// Appends the line of a valid certificate.
#[tactic(auto, unfolding(witness_check::specs::Line::line))]
fn put_valid(text: &mut Text, answer: Found) -> Result<(), NoMemory>
    ensures { OnOk result (text.new ≡ text.old ++ valid_line answer) }
{
    text.put("valid ")?;
    text.put(answer_word(answer))?;
    text.put("\n")
}

// Appends the line that tells a bad line and the reason.
#[tactic(auto, unfolding(witness_check::specs::Line::line))]
fn put_bad(text: &mut Text, line: u32, reason: Reason) -> Result<(), NoMemory>
    ensures { OnOk result (text.new ≡ text.old ++ bad_line line reason) }
{
    text.put("bad ")?;
    text.put_number(u64::from(line))?;
    text.put(" ")?;
    text.put(reason_word(reason))?;
    text.put("\n")
}

// The answer to what a check says.
fn check_answer(alloc: Global, checked: Checked) -> Result<Answer, NoMemory>
    ensures { IfOk result (λ answer. answer ≡ check_answer checked) }
{
    let mut text = Text::new(alloc);
    let status = match checked {
        Checked::Valid(answer) => {
            put_valid(&mut text, answer)?;
            Status::Done
        }
        Checked::Bad { line, reason } => {
            put_bad(&mut text, line, reason)?;
            Status::Bad
        }
    };
    Ok(Answer { status, text })
}

/// The answer of `check` to a text: whether it is a valid certificate, with what that says of the contact class, or else its
/// first bad line with the reason. The cost is that of `witness_check::check`.
pub(crate) fn judged(alloc: Global, text: &[u8]) -> Result<Answer, NoMemory>
    requires { length text.now < 2 ^ 32 }
    ensures answered { IfOk result (λ answer. answer ≡ check_answer (checked text.now)) }
    ensures settled { IfOk result (λ answer. has_text answer.status ≡ true) }
{
    let checked = check(alloc, text)?;
    check_answer(alloc, checked)
}
