//! Where two slices of bytes differ: whole sections at once, then byte by byte.
ghost use Rattle.std.specs.Prelude.{ℕ, ◌≡◌, ◌≤◌, ◌<◌, ◌+◌, length, slice_index, IsTrue, MatchOption};
ghost use Rattle.mda_text.specs.Difference.{DiffersFirstAt};

use std::simd::prelude::*;

/// How many bytes are compared at once.
const LANES: usize = 32;

/// Whether the 32 bytes from `at` on are the same in both slices, which are compared in one step of SIMD.
#[inline(always)]
fn same_section(a: &[u8], b: &[u8], at: usize) -> bool
    requires first { at + 32 ≤ length a.now }
    requires second { at + 32 ≤ length b.now }
    ensures { IsTrue result → (k : ℕ) → at ≤ k → k < at + 32 → slice_index a.now k ≡ slice_index b.now k }
{
    let differing = u8x32::from_slice(&a[at..]).simd_ne(u8x32::from_slice(&b[at..]));
    differing.to_bitmask() == 0
}

/// How many bytes at the front of two slices are the same, in whole sections of 32: there the search for the first
/// difference begins.
fn same_sections(a: &[u8], b: &[u8]) -> usize
    requires { length a.now ≡ length b.now }
    ensures within { result ≤ length a.now }
    ensures same { (k : ℕ) → k < result → slice_index a.now k ≡ slice_index b.now k }
{
    let mut at = 0;
    while a.len() - at >= LANES && same_section(a, b, at) {
        at += LANES;
    }
    at
}

/// The least place where two slices of one length differ, which shows what was written to a section of text memory
/// since a mark; `None` if they are the same.
pub fn first_difference(a: &[u8], b: &[u8]) -> Option<usize>
    requires { length a.now ≡ length b.now }
    ensures { MatchOption result (a.now ≡ b.now) (DiffersFirstAt a.now b.now) }
{
    for at in same_sections(a, b)..a.len() {
        if a[at] != b[at] {
            return Some(at);
        }
    }
    None
}
