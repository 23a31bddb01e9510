//! Notes, as lines of their own beside those of the report.
ghost use Rattle.std.specs.Prelude.{◌≡◌, ◌++◌, OnOk, true};
ghost use Rattle.sq_show.specs.Mark.{marked};

use std::alloc::AllocError;

/// Adds notes: each line of them behind two blanks, `--` and a blank. The last line is ended, too.
pub(crate) fn push_marked(lines: &mut Vec<u8>, notes: &[u8]) -> Result<(), AllocError>
    ensures { OnOk result (lines.new.items ≡ lines.old.items ++ marked true notes.now) }
{
    let mut starts = true;
    for byte in notes {
        if starts {
            lines.extend_from_slice(b"  -- ")?;
        }
        lines.push(*byte)?;
        starts = *byte == b'\n';
    }
    if !starts {
        lines.push(b'\n')?;
    }
    Ok(())
}
