//! Numbers and zeros behind bytes.
ghost use Rattle.std.specs.Prelude.{◌≡◌, ◌++◌, OnOk, replicate};
ghost use Rattle.uh_base.specs.LittleEndian.{low_bytes};

use std::alloc::AllocError;

/// Appends the low so many bytes of a number, the least first.
#[tactic(auto, unfolding(uh_base::specs::LittleEndian::low_bytes))]
pub fn put(out: &mut Vec<u8>, width: u8, value: u64) -> Result<(), AllocError>
    ensures { OnOk result (out.new.items ≡ out.old.items ++ low_bytes width value) }
{
    if width > 0 {
        out.push((value % 256) as u8)?;
        put(out, width - 1, value / 256)?;
    }
    Ok(())
}

/// Appends so many zeros.
pub fn put_zeros(out: &mut Vec<u8>, count: u64) -> Result<(), AllocError>
    ensures { OnOk result (out.new.items ≡ out.old.items ++ replicate count 0) }
{
    for _ in 0..count {
        out.push(0)?;
    }
    Ok(())
}
