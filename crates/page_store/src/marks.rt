//! Marks of the pages that were written.
ghost use Rattle.std.specs.Prelude.{◌≤◌, length};
ghost use Rattle.page_store.specs.Pages.{HasMarked};

/// Marks the pages from the first up to the end.
#[inline(always)]
pub(crate) fn mark(marks: &mut [bool], first: usize, end: usize)
    requires { end ≤ length marks.old }
    ensures { HasMarked first end marks.old marks.new }
{
    if first < end {
        marks[first] = true;
        if first + 1 < end {
            mark_all(marks, first + 1, end);
        }
    }
}

// Apart from `mark`, since a store mostly writes to one page.
#[inline(never)]
fn mark_all(marks: &mut [bool], first: usize, end: usize)
    requires order { first ≤ end }
    requires within { end ≤ length marks.old }
    ensures { HasMarked first end marks.old marks.new }
{
    for page in first..end {
        marks[page] = true;
    }
}
