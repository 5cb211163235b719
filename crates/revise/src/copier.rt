// A copy of an outline with another length of one record.
ghost use Rattle.std.specs.Prelude.{◌≡◌, ◌≤◌, length};
ghost use Rattle.lists.specs.Lists.{over};
ghost use Rattle.outline.specs.Outline.{IsRecord};
ghost use Rattle.revise.specs.Revised.{revised};

use text::Pen;

// Writes the revised outline to the beginning of a draft: what stands before the record's length, the new length, and what stands after it.
pub fn copy_revised(o: &[u8], changed: usize, to: u32, draft: &mut [u8])
    requires { IsRecord o.now changed × (length o.now ≤ length draft.old) }
    ensures { draft.new ≡ over (revised o.now changed to) draft.old }
{
    let at = 16 * (changed - 1) + 4;
    let mut pen = Pen {
        buffer: draft,
        at: 0,
    };
    pen.put(&o[..at]);
    pen.put(&to.to_le_bytes());
    pen.put(&o[at + 4..]);
}
