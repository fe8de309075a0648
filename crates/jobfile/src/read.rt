//! Reading a job file: its records, one after the other, to its end.
ghost use Rattle.std.specs.Prelude.{◌≡◌, IfOk};
ghost use Rattle.rules.specs.Files.{loaded};
ghost use Rattle.rules.specs.Jobs.{Valid};
ghost use Rattle.rules.specs.Refusals.{told_file};

use crate::record::take_record;
use rules::refusal::{FileRefusal, Refusal};
use tables::tables::Tables;

const VERSION: u8 = 1;

const LONGEST_FILE: usize = 4096;

/// The tables that a job file stands for: its records' edits, in order, on new tables. The first record at fault refuses the
/// file, with the offset of its length: 6 torn, 7 unknown, or what its edit is refused with; 5 (at 0) not a job file.
pub fn read_tables(file: &[u8]) -> Result<Tables, FileRefusal>
    ensures exact { told_file result ≡ loaded file.now }
    ensures valid { IfOk result Valid }
{
    let mut rest = match file {
        [VERSION, records @ ..] if file.len() <= LONGEST_FILE => records,
        _ => {
            return Err(FileRefusal {
                reason: Refusal::NotAJobFile,
                offset: 0,
            });
        }
    };
    let mut tables = Tables::new();
    while !rest.is_empty() {
        let offset = file.len() - rest.len();
        rest = take_record(&mut tables, rest).map_err(|reason| FileRefusal { reason, offset })?;
    }
    // for the ranges alone
    let _ = tables.steps();
    Ok(tables)
}
