//! What a schedule prints. After want of memory part of it may stand in `out`.
ghost use Rattle.std.specs.Prelude.{◌≡◌, ◌++◌, option_map, decimal, IfOk, OnOk};
ghost use Rattle.vs_command.specs.Outcomes.{outcome_of};
ghost use Rattle.vs_command.specs.Scores.{HasScores};
ghost use Rattle.vs_schedule_words.specs.Cut.{behind_end};
ghost use Rattle.vs_thread_defs.specs.Schedule.{in_one_line, result_text, bad_line_text};

use itoa::Buffer;
use std::alloc::Global;
use vs_command::{Answer, Refusal};
use vs_outside::{NoMemory, Text};
use vs_reply::{Proto, reply_into, short_reply};

// What stands behind a line end at the front.
fn behind_line_end(text: &[u8]) -> Option<&[u8]>
    ensures behind { option_map (λ rest. rest.now) result ≡ behind_end text.now }
{
    match text {
        [b'\r', b'\n', rest @ ..] => Some(rest),
        _ => None,
    }
}

/// Appends a reply with each line end as one space, the last one dropped.
pub fn push_in_one_line(out: &mut Text, reply: &[u8]) -> Result<(), NoMemory>
    ensures { OnOk result (out.new ≡ out.old ++ in_one_line reply.now) }
{
    let mut rest = reply;
    while let [byte, behind @ ..] = rest {
        match behind_line_end(rest) {
            Some(next_line) => {
                if !next_line.is_empty() {
                    out.push(b' ')?;
                }
                rest = next_line;
            }
            None => {
                out.push(*byte)?;
                rest = behind;
            }
        }
    }
    Ok(())
}

/// Appends the reply of a request's outcome in one line.
pub fn push_result(
    alloc: Global,
    out: &mut Text,
    outcome: &Result<Answer, Refusal>,
) -> Result<(), NoMemory>
    requires { IfOk outcome.now HasScores }
    ensures { OnOk result (out.new ≡ out.old ++ result_text (outcome_of outcome.now)) }
{
    if let Some(short) = short_reply(outcome) {
        return push_in_one_line(out, short.as_slice());
    }
    match outcome {
        Ok(answer) => {
            let mut reply = Text::new(alloc);
            reply_into(&mut reply, answer, Proto::Two)?;
            push_in_one_line(out, reply.as_slice())
        }
        Err(_) => unreachable!(),
    }
}

/// Appends a number in decimal digits.
pub fn push_decimal(out: &mut Text, number: u64) -> Result<(), NoMemory>
    ensures { OnOk result (out.new ≡ out.old ++ decimal number) }
{
    let mut buffer = Buffer::new();
    out.extend_from_slice(buffer.format(number).as_bytes())
}

/// Appends what is printed of a bad line with this number.
pub fn push_bad_line(out: &mut Text, number: u64) -> Result<(), NoMemory>
    ensures { OnOk result (out.new ≡ out.old ++ bad_line_text number) }
{
    out.extend_from_slice(b"bad line ")?;
    push_decimal(out, number)?;
    out.push(b'\n')
}
