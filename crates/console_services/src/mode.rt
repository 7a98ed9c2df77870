//! The console's mode: there is mode 0 alone, of 80 columns and 25 rows.
ghost use Rattle.std.specs.Prelude.{◌≡◌, IfOk, OnOk, IsTrue, true, false};
ghost use Rattle.guest_memory.specs.Pages.{rights_at};
ghost use Rattle.address_view.specs.Windows.{see};
ghost use Rattle.address_view.specs.Seen.{all_pass, is_seen};
ghost use Rattle.address_view.specs.Stored.{lacks_seen};
ghost use Rattle.console_services.specs.Console.{set_mode};
ghost use Rattle.console_services.specs.Modes.{are_outputs, columns_written, size_written, size_told, query_mode};

use address_view::{ByteRange, View, lacks_after, ranges_suffice};
use guest_call::{Answer, argument, can_write, put_output};
use guest_memory::GuestMemory;
use std::alloc::AllocError;
use uh_base::EfiStatus;

/// The columns and the rows of mode 0.
const COLUMNS: u64 = 80;

const ROWS: u64 = 25;

/// SetMode (UEFI 2.10, 12.4.6): the status. There is mode 0 alone.
pub fn set_mode(mode: u64) -> EfiStatus
    ensures { result.0 ≡ set_mode mode }
{
    if mode == 0 {
        EfiStatus::SUCCESS
    } else {
        EfiStatus::UNSUPPORTED
    }
}

/// Whether both outputs may be written.
fn are_outputs(memory: &GuestMemory, view: &View, columns: u64, rows: u64) -> bool
    ensures test { result ≡ are_outputs (see view.now) memory.now columns rows }
    ensures seen_columns { IsTrue result → all_pass (is_seen (see view.now) memory.now) columns 8 ≡ true }
    ensures seen_rows { IsTrue result → all_pass (is_seen (see view.now) memory.now) rows 8 ≡ true }
{
    can_write(memory, view, columns, 8) && can_write(memory, view, rows, 8)
}

/// Writes the columns and the rows, where there are frames for both.
fn write_size(
    memory: &mut GuestMemory,
    view: &View,
    columns: u64,
    rows: u64,
) -> Result<(), AllocError>
    requires seen_columns { all_pass (is_seen (see view.now) memory.old) columns 8 ≡ true }
    requires seen_rows { all_pass (is_seen (see view.now) memory.old) rows 8 ≡ true }
    requires frames { lacks_seen (see view.now) memory.old columns 8 ≡ false }
    requires frames_behind { lacks_seen (see view.now) (columns_written (see view.now) memory.old columns) rows 8 ≡ false }
    ensures ok { OnOk result (memory.new ≡ size_written (see view.now) memory.old columns rows) }
    ensures base { memory.new.base ≡ memory.old.base }
    ensures pages { memory.new.pages ≡ memory.old.pages }
{
    put_output(memory, view, columns, 8, COLUMNS)?;
    put_output(memory, view, rows, 8, ROWS)
}

/// Tells the columns and the rows.
#[tactic(auto, using(crate::proofs::ModeLemmas::columns_fit, crate::proofs::ModeLemmas::rows_fit))]
fn tell_size(
    memory: &mut GuestMemory,
    view: &View,
    columns: u64,
    rows: u64,
) -> Result<Answer, AllocError>
    requires seen_columns { all_pass (is_seen (see view.now) memory.old) columns 8 ≡ true }
    requires seen_rows { all_pass (is_seen (see view.now) memory.old) rows 8 ≡ true }
    ensures ok { IfOk result (λ answer. record { answer = answer; memory = memory.new } ≡ size_told (see view.now) memory.old columns rows) }
    ensures base { memory.new.base ≡ memory.old.base }
    ensures pages { memory.new.pages ≡ memory.old.pages }
{
    ranges_suffice();
    let told_columns = ByteRange {
        at: columns,
        len: 8,
    };
    let told_rows = ByteRange { at: rows, len: 8 };
    if lacks_after(memory, view, &[told_columns, told_rows]) {
        return Ok(Answer::LacksFrames);
    }
    write_size(memory, view, columns, rows)?;
    Ok(Answer::Gives(EfiStatus::SUCCESS.0))
}

/// QueryMode (this, mode, columns, rows; UEFI 2.10, 12.4.5): tells the columns and the rows of mode 0, 8 bytes each. `Err`
/// is want of host memory.
#[tactic(auto, unfolding(crate::specs::Modes::query_mode))]
pub fn query_mode(
    registers: &[u64; 32],
    view: &View,
    memory: &mut GuestMemory,
) -> Result<Answer, AllocError>
    ensures ok { IfOk result (λ answer. record { answer = answer; memory = memory.new } ≡ query_mode registers.now (see view.now) memory.old) }
    ensures base { memory.new.base ≡ memory.old.base }
    ensures pages { memory.new.pages ≡ memory.old.pages }
{
    let columns = argument(2, registers);
    let rows = argument(3, registers);
    if !are_outputs(memory, view, columns, rows) {
        return Ok(Answer::Gives(EfiStatus::INVALID_PARAMETER.0));
    }
    if argument(1, registers) != 0 {
        return Ok(Answer::Gives(EfiStatus::UNSUPPORTED.0));
    }
    tell_size(memory, view, columns, rows)
}
