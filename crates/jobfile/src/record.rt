//! The records of a job file: a length in two bytes, a tag and fields.
ghost use Rattle.std.specs.Prelude.{◌≡◌, ◌≤◌, length};
ghost use Rattle.std.specs.Option.{ok_or};
ghost use Rattle.rules.specs.declared.refusal.Refusal.TheVariants.{UnknownRecord};
ghost use Rattle.rules.specs.Files.{edit_of};
ghost use Rattle.jobfile.specs.Records.{Split, Takes};

use crate::tag::Tag;
use rules::edit::Edit;
use rules::kind::Figures;
use rules::operation::Operation;
use rules::refusal::Refusal;
use tables::tables::Tables;

// The edit that a record stands for, given without its length: a tag and its fields, with nothing left over. Refused: 7 it is unknown.
fn edit_of(body: &[u8]) -> Result<Edit, Refusal>
    ensures { result ≡ ok_or (edit_of body.now) UnknownRecord }
{
    let [tag, fields @ ..] = body else {
        return Err(Refusal::UnknownRecord);
    };
    match (Tag::try_from(*tag)?, fields) {
        (
            Tag::Kind,
            [
                duration,
                busy,
                cap,
                area_high,
                area_low,
                draw_high,
                draw_low,
            ],
        ) => Ok(Edit::AddKind(Figures {
            duration: *duration,
            busy: *busy,
            cap: *cap,
            area: u16::from_be_bytes([*area_high, *area_low]),
            draw: u16::from_be_bytes([*draw_high, *draw_low]),
        })),
        (Tag::Operation, [kind, left, right]) => Ok(Edit::AddOperation(Operation {
            kind: *kind,
            left: *left,
            right: *right,
        })),
        (Tag::Limits, [steps, latency]) => Ok(Edit::SetLimits {
            steps: *steps,
            latency: *latency,
        }),
        (Tag::LibraryKind, [number, cap]) => Ok(Edit::AddLibraryKind {
            number: *number,
            cap: *cap,
        }),
        _ => Err(Refusal::UnknownRecord),
    }
}

// The body of the record that the bytes begin with, and what follows it; nothing where the bytes end within the record.
fn split_record(bytes: &[u8]) -> Option<(&[u8], &[u8])>
    ensures { Split bytes.now result }
{
    let [high, low, rest @ ..] = bytes else {
        return None;
    };
    let length = u16::from_be_bytes([*high, *low]) as usize;
    if length > rest.len() {
        return None;
    }
    Some(rest.split_at(length))
}

// Makes the edit that the first record stands for, and answers what follows it. Refused: 6 torn, 7 unknown, or what the edit is
// refused with.
pub(crate) fn take_record<'a>(tables: &mut Tables, bytes: &'a [u8]) -> Result<&'a [u8], Refusal>
    requires { 1 ≤ length bytes.now }
    ensures { Takes tables.old bytes.now result tables.new }
{
    let (body, after) = split_record(bytes).ok_or(Refusal::TornRecord)?;
    tables.edit(edit_of(body)?)?;
    Ok(after)
}
