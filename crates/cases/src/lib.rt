//! Worked cases: tables of what the rules say, each row proved by computation.
#![tactic(auto)]

ghost use Rattle.std.specs.Prelude.{◌≡◌, map, length};
ghost use Rattle.cases.specs.Answers.{answers, AllAnswered};
ghost use Rattle.cases.specs.Costs.{Costed};
ghost use Rattle.cases.specs.Floors.{floor_rows, AllFloored};
ghost use Rattle.cases.specs.Frames.{frames, AllFramed};
ghost use Rattle.cases.specs.Known.{every_refusal, Known};
ghost use Rattle.cases.specs.Order.{Ordered};
ghost use Rattle.cases.specs.Places.{PlacesTold};
ghost use Rattle.rules.specs.Refusals.{number};

use rules::refusal::Refusal;

// One function for each table: its contract names the table, and a generic one could name none.

/// How many rows the table of answers has: calls that change a job, and what each is answered. Every row holds.
pub fn answer_rows() -> usize
    ensures count { result ≡ length answers }
    ensures hold { AllAnswered answers }
{
    ANSWERS
}

/// How many rows the table of frames has: jobs, and the frame of one operation. Every row holds.
pub fn frame_rows() -> usize
    ensures count { result ≡ length frames }
    ensures hold { AllFramed frames }
{
    FRAMES
}

/// How many rows the table of floors has: jobs with slots for their first operations, and what the bounds answer for a kind. Every row
/// holds; and what plans cost, where costs stop, the order of plans and what a place is are as they should be.
pub fn floor_rows() -> usize
    ensures count { result ≡ length floor_rows }
    ensures hold { AllFloored floor_rows }
    ensures costed { Costed }
    ensures ordered { Ordered }
    ensures places { PlacesTold }
{
    FLOORS
}

/// The numbers of the refusals, in the order of the enum. They, the library's rows and the fields of each record are as they should be.
pub fn refusal_numbers() -> [u8; 15]
    ensures exact { result ≡ map number every_refusal }
    ensures hold { Known }
{
    [
        Refusal::FigureOutOfRange.number(),
        Refusal::LimitOutOfRange.number(),
        Refusal::AllowanceOutOfRange.number(),
        Refusal::UnknownLibraryUnit.number(),
        Refusal::NotAJobFile.number(),
        Refusal::TornRecord.number(),
        Refusal::UnknownRecord.number(),
        Refusal::ShortBuffer.number(),
        Refusal::TooManyKinds.number(),
        Refusal::TooManyOperations.number(),
        Refusal::UnknownKind.number(),
        Refusal::UnknownOperand.number(),
        Refusal::BusyBeyondLatency.number(),
        Refusal::NothingToSearch.number(),
        Refusal::UnknownOperation.number(),
    ]
}

const ANSWERS: usize = 77;

const FRAMES: usize = 13;

const FLOORS: usize = 23;
