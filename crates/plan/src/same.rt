// Two pictures compared (document 02, request Eleven): a tile differs if its filled-up RGB bytes do. The fill repeats pixels of the tile itself, so only the
// bytes in the picture are compared.
ghost use Rattle.std.specs.Prelude.{◌≡◌, ◌+◌, ◌≤◌, ◌<◌, min, length};
ghost use Rattle.frame_pieces.specs.Parts.{tiles_no};
ghost use Rattle.plan.specs.Plan.{Pictures, changed_tile};
ghost use Rattle.plan.specs.Runs.{same_run, same_rows, RowsIn};

// Are the n bytes from a place on the same in both? No way out before the end, so that many bytes are compared at once.
fn same_run(a: &[u8], b: &[u8], at: usize, n: usize) -> bool
    requires { (at + n ≤ length a.now) × (at + n ≤ length b.now) }
    ensures { result ≡ same_run a.now b.now at n }
{
    let mut same = true;
    for i in 0..n {
        if a[at + i] != b[at + i] {
            same = false;
        }
    }
    same
}

// Are rows of n bytes the same in both, each `step` bytes behind the one before? Rows with nothing between them are one run.
fn same_rows(a: &[u8], b: &[u8], at: usize, step: usize, n: usize, rows: usize) -> bool
    requires { RowsIn a.now at step n rows × RowsIn b.now at step n rows }
    ensures { result ≡ same_rows a.now b.now at step n rows }
{
    if n == step {
        return same_run(a, b, at, rows * n);
    }
    for r in 0..rows {
        if !same_run(a, b, at + r * step, n) {
            return false;
        }
    }
    true
}

// How many of a tile's 64 columns, or rows, lie in the picture, of which so many are left.
fn within(left: usize) -> usize
    ensures { result ≡ min left 64 }
{
    left.min(64)
}

// Does tile k differ?
pub fn is_changed(w: usize, h: usize, old: &[u8], new: &[u8], k: usize) -> bool
    requires { Pictures w h old.now new.now × (k < tiles_no w h) }
    ensures { result ≡ changed_tile old.now new.now w h k }
{
    let columns = frame_pieces::cols_of(w);
    let x = 64 * (k % columns);
    let y = 64 * (k / columns);
    let wide = 3 * within(w - x);
    let high = within(h - y);
    !same_rows(old, new, 3 * (y * w + x), 3 * w, wide, high)
}
