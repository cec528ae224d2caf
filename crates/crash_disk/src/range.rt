//! Ranges of places, and what lies in them.
ghost use Rattle.std.specs.Prelude.{◌≡◌, ◌⊎◌, ◌<◌, ◌≤◌, ℕ, length, slice_index, if◌then◌else◌};
ghost use Rattle.crash_disk.specs.Ranges.{IsOutside, is_in};

/// The places from `start` on that lie in front of `end`.
#[derive(Clone, Copy, Debug, PartialEq, Eq)]
pub struct Range {
    /// The first place, counted in bytes from 0.
    pub start: usize,
    /// The place behind the last one.
    pub end: usize,
}

/// Copies what `from` has in the places of a range to the same places of `to`.
pub fn copy_range(from: &[u8], to: &mut [u8], range: Range)
    requires { length to.old ≡ length from.now }
    ensures inside { (i : ℕ) → range.start ≤ i → i < range.end → slice_index to.new i ≡ slice_index from.now i }
    ensures outside { (i : ℕ) → (i < range.start) ⊎ (range.end ≤ i) → slice_index to.new i ≡ slice_index to.old i }
{
    let start = range.start;
    let end = range.end.min(from.len());
    if start < end {
        to[start..end].copy_from_slice(&from[start..end]);
    }
}

/// Copies what `from` has in the places of each of these ranges to the same places of `to`.
pub fn copy_ranges(from: &[u8], to: &mut [u8], ranges: &[Range])
    requires { length to.old ≡ length from.now }
    ensures { (i : ℕ) → (IsOutside i ranges.now → slice_index to.old i ≡ slice_index from.now i) → slice_index to.new i ≡ slice_index from.now i }
{
    for range in ranges {
        copy_range(from, to, *range);
    }
}

/// Puts the byte 0x01 into each place of a range.
pub fn mark_range(to: &mut [u8], range: Range)
    ensures inside { (i : ℕ) → range.start ≤ i → i < range.end → i < length to.old → slice_index to.new i ≡ 1 }
    ensures outside { (i : ℕ) → (i < range.start) ⊎ (range.end ≤ i) → slice_index to.new i ≡ slice_index to.old i }
{
    let start = range.start;
    let end = range.end.min(to.len());
    if start < end {
        to[start..end].fill(1);
    }
}

/// Puts the byte 0x01 into each place of each of these ranges.
pub fn mark_ranges(to: &mut [u8], ranges: &[Range])
    ensures { (i : ℕ) → i < length to.old → slice_index to.new i ≡ (if is_in i ranges.now then 1 else slice_index to.old i) }
{
    for range in ranges {
        mark_range(to, *range);
    }
}
