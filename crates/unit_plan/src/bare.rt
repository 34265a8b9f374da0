//! A plan's text without its keys and associations, which is what an image holds of it, with its laws.
ghost use Rattle.std.specs.Prelude.{◌≡◌, ◌+◌, ◌≤◌, ◌++◌, [], length, take, drop, if◌then◌else◌, ℕ, List, Ok};
ghost use Rattle.unit_plan.specs.Lines.{words_of};
ghost use Rattle.unit_plan.specs.Bare.{names_rows, is_bare, ended, bare_of, without_rows};
ghost use Rattle.unit_plan.specs.Plan.{plan_of};
ghost use Rattle.unit_plan.specs.PlanLines.{PlanLines};

use crate::MOST_OCTETS;
use crate::lines::{Lines, Words};
use crate::taking::is_skipped;
use sdls_base::put;

/// Whether the line is that of a key or of an association.
fn names_rows(line: &[u8]) -> bool
    ensures { result ≡ names_rows (words_of line.now) }
{
    match Words::of(line).next() {
        Some(word) => word == b"key".as_slice() || word == b"sa".as_slice(),
        None => false,
    }
}

/// Whether the bare plan keeps the line.
fn is_bare(line: &[u8]) -> bool
    ensures { result ≡ is_bare line.now }
{
    !is_skipped(line) && !names_rows(line)
}

/// Writes a line and its line feed from place `at` on, and returns the place after them.
fn put_line(out: &mut [u8], at: usize, line: &[u8]) -> usize
    requires { at + length (ended line.now) ≤ length out.old }
    ensures place { result ≡ at + length (ended line.now) }
    ensures written { take result out.new ≡ take at out.old ++ ended line.now }
    ensures rest { drop result out.new ≡ drop result out.old }
{
    let end = put(out, at, line);
    put(out, end, b"\n")
}

/// Writes a line as `put_line` does, if the bare plan keeps it.
fn put_bare(out: &mut [u8], at: usize, line: &[u8]) -> usize
    requires { at + length (ended line.now) ≤ length out.old }
    ensures place { result ≡ at + length (if is_bare line.now then ended line.now else []) }
    ensures written { take result out.new ≡ take at out.old ++ (if is_bare line.now then ended line.now else []) }
    ensures rest { drop result out.new ≡ drop result out.old }
{
    if is_bare(line) {
        put_line(out, at, line)
    } else {
        at
    }
}

/// Writes the bare plan of a text into the front of `out`, and returns the number of its octets. `out` has at least
/// one octet more than the text, since the last line may lack its line feed. Takes no memory.
pub fn write_bare_plan(text: &[u8], out: &mut [u8]) -> usize
    requires { length text.now + 1 ≤ length out.old }
    ensures place { result ≡ length (bare_of text.now) }
    ensures written { take result out.new ≡ bare_of text.now }
    // What stands behind it is as it was.
    ensures rest { drop result out.new ≡ drop result out.old }
{
    let mut end = 0;
    for line in Lines::of(text) {
        end = put_bare(out, end, line);
    }
    end
}

/// Law: the bare plan of a plan is no longer than a plan may be, though the last line of the plan may lack its line
/// feed.
#[tactic(auto, using(crate::proofs::BareRoom::bare_plan_is_short))]
pub fn bare_plan_is_short()
    ensures { (text : List ℕ) (plan : PlanLines) → plan_of text ≡ Ok plan → length (bare_of text) ≤ MOST_OCTETS }
{}

/// Law: the bare plan of a plan reads as the plan without keys and associations.
#[tactic(auto, using(crate::proofs::BareRoom::bare_plan_reads))]
pub fn bare_plan_reads()
    ensures { (text : List ℕ) (plan : PlanLines) → plan_of text ≡ Ok plan
        → plan_of (bare_of text) ≡ Ok (without_rows plan) }
{}
