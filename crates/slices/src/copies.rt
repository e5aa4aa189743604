// A slice is stored: the rows of its base are copied, or cleared for base 0, and the one of the writer's key is set. It
// is dropped: all are cleared.
ghost use Rattle.std.specs.Prelude.{◌≡◌, false, ◌<◌, ◌≤◌};
ghost use Rattle.model.specs.Limits.{keys, timestamps};
ghost use Rattle.model.specs.Rules.{copied, sliced};
ghost use Rattle.slices.specs.Slices.{StoresSlice, slice_dropped};

use crate::places::Slice;
use model::limits::{KEYS, ROWS, TIMESTAMPS};
use model::{Value, Writer};

// The rows of the slice become absent.
#[tactic(auto, using(crate::proofs::Rows::clear_row), unfolding(model::specs::Rules::copied))]
fn clear<T: Copy>(rows: &mut [T; ROWS], slice: Slice, absent: T)
    ensures { rows.new ≡ copied absent rows.old slice.group 0 slice.ts keys }
{
    let to = slice.row(0);
    for k in 0..KEYS {
        rows[to + k] = absent;
    }
}

// The rows of a slice of the same group into the slice.
#[tactic(auto, using(crate::proofs::Rows::copied_rows))]
fn copy<T: Copy>(rows: &mut [T; ROWS], base: Slice, slice: Slice)
    requires { base.group ≡ slice.group }
    ensures { (absent : T) → rows.new ≡ copied absent rows.old slice.group base.ts slice.ts keys }
{
    let from = base.row(0);
    rows.copy_within(from..from + KEYS, slice.row(0));
}

// The slice: the rows of its group's slice of `base`, none for base 0, with the one of `key` set.
#[tactic(auto, using(std::proofs::lemmas::Bool::Decides::nat_tests), unfolding(model::specs::Rules::sliced))]
fn store<T: Copy>(rows: &mut [T; ROWS], slice: Slice, base: usize, key: usize, row: T, absent: T)
    requires { (base ≤ timestamps) × (key < keys) }
    ensures { rows.new ≡ sliced absent rows.old slice.group base slice.ts key row }
{
    match Slice::of(slice.group, base) {
        Some(base) => copy(rows, base, slice),
        None => clear(rows, slice, absent),
    }
    rows[slice.row(key)] = row;
}

// Stores the slice of a writer's operation: a put makes its key present with its value, a remove absent.
// Nothing is stored where one of the writer's numbers is out of range.
#[tactic(auto, using(std::proofs::lemmas::Bool::Decides::nat_tests), unfolding(crate::specs::Slices::slice_stored))]
pub fn store_slice(present: &mut [bool; ROWS], values: &mut [Value; ROWS], x: Writer)
    ensures { StoresSlice x present values }
{
    let base = x.base as usize;
    let key = x.key as usize;
    let Some(slice) = Slice::of(x.group as usize, x.ts as usize) else {
        return;
    };
    if base > TIMESTAMPS || key >= KEYS {
        return;
    }
    store(present, slice, base, key, x.put, false);
    store(values, slice, base, key, x.value, 0);
}

// Drops the slice of a file group and a timestamp: its rows become absent. Nothing changes where one of the two is out of range.
pub fn drop_slice(present: &mut [bool; ROWS], group: u8, ts: u8)
    ensures { present.new ≡ slice_dropped present.old group ts }
{
    if let Some(slice) = Slice::of(group as usize, ts as usize) {
        clear(present, slice, false);
    }
}
