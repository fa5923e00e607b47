//! Sets of numbers that are kept as intervals: how one interval is added or cut out.

ghost use Rattle.std.specs.Prelude.{◌≡◌, ℕ, ◌+◌, ◌<◌, ◌≤◌, ◌↔◌, ◌||◌, ◌&&◌, not, Bool, true, false, [], IsTrue, nat_le, nat_lt, IfOk, OnOk, OnErr, MatchOption};
ghost use Rattle.rf_exclusions.specs.Spans.{has_in, between, IsEmptySet, IsOnly, IsWithin, Misses, joined, with_span, without_span};
ghost use Rattle.std.specs.List.{list_all};

use crate::span::Span;
use rf_base::NoMemory;
use std::alloc::Global;
use std::marker::Model;

/// A set of numbers: closed intervals in order, disjoint and not touching.
#[derive(Drop)]
pub struct Spans {
    items: Vec<Span>,
}

impl Model for Spans {
    ghost use Rattle.std.specs.Prelude.{List};
    ghost use Rattle.rf_exclusions.specs.Spans.{AreApart};
    ghost use Rattle.rf_exclusions.specs.declared.span.Span.{Span};

    ghost Value = { List Span };

    ghost view = { λ s. s.items.items };

    ghost invariant = { λ s. AreApart s.items.items };
}

impl Spans {
    /// No number.
    pub fn new(alloc: Global) -> Spans
        ensures { result ≡ [] }
    {
        Spans {
            items: Vec::new(alloc),
        }
    }

    /// Whether a number is in the set.
    pub fn has(&self, x: u32) -> bool
        ensures { result ≡ has_in self.now x }
    {
        self.items.iter().any(|span| span.lo <= x && x <= span.hi)
    }

    /// Whether no number is in the set.
    pub fn is_empty(&self) -> bool
        ensures { IsTrue result ↔ IsEmptySet self.now }
    {
        self.items.as_slice().is_empty()
    }

    /// The one number, where there is exactly one.
    pub fn only(&self) -> Option<u32>
        ensures { MatchOption result ((x : ℕ) → IsOnly self.now x → ⊥) (λ x. IsOnly self.now x) }
    {
        let spans = self.items.as_slice();
        if spans.len() == 1 && spans[0].lo == spans[0].hi {
            Some(spans[0].lo)
        } else {
            None
        }
    }

    /// Whether each number of the set is from `lo` to `hi`.
    pub fn is_within(&self, lo: u32, hi: u32) -> bool
        ensures { IsTrue result ↔ IsWithin lo hi self.now }
    {
        are_within(self.items.as_slice(), lo, hi)
    }

    /// Whether no number of the set is from `lo` to `hi`.
    pub fn misses(&self, lo: u32, hi: u32) -> bool
        requires { lo ≤ hi }
        ensures { IsTrue result ↔ Misses lo hi self.now }
    {
        are_outside(self.items.as_slice(), lo, hi)
    }

    /// Adds the numbers from `lo` to `hi`. `NoMemory` where no memory is found; the set is then as before.
    pub fn add(&mut self, lo: u32, hi: u32) -> Result<(), NoMemory>
        requires { lo ≤ hi }
        ensures added { OnOk result ((x : ℕ) → has_in self.new x ≡ (has_in self.old x || between lo hi x)) }
        ensures kept { OnErr result (self.new ≡ self.old) }
    {
        let alloc = *self.items.allocator();
        let spans = spans_with(alloc, self.items.as_slice(), Span { lo, hi })?;
        self.items = spans;
        Ok(())
    }

    /// Takes the numbers from `lo` to `hi` out. `NoMemory` where no memory is found; the set is then as before.
    pub fn cut(&mut self, lo: u32, hi: u32) -> Result<(), NoMemory>
        requires { lo ≤ hi }
        ensures cut { OnOk result ((x : ℕ) → has_in self.new x ≡ (has_in self.old x && not (between lo hi x))) }
        ensures kept { OnErr result (self.new ≡ self.old) }
    {
        let alloc = *self.items.allocator();
        let spans = spans_without(alloc, self.items.as_slice(), Span { lo, hi })?;
        self.items = spans;
        Ok(())
    }
}

fn are_within(spans: &[Span], lo: u32, hi: u32) -> bool
    ensures { result ≡ list_all (λ span. nat_le lo span.lo && nat_le span.hi hi) spans.now }
{
    spans.iter().all(|span| lo <= span.lo && span.hi <= hi)
}

fn are_outside(spans: &[Span], lo: u32, hi: u32) -> bool
    ensures { result ≡ list_all (λ span. nat_lt span.hi lo || nat_lt hi span.lo) spans.now }
{
    spans.iter().all(|span| span.hi < lo || hi < span.lo)
}

// Whether there is a number between the end of one interval and the start of another.
fn is_before(end: u32, start: u32) -> bool
    ensures { IsTrue result ↔ (end + 1 < start) }
{
    end < start && start - end > 1
}

fn join(a: Span, b: Span) -> Span
    ensures { result ≡ joined a b }
{
    Span {
        lo: a.lo.min(b.lo),
        hi: a.hi.max(b.hi),
    }
}

fn spans_with(alloc: Global, spans: &[Span], span: Span) -> Result<Vec<Span>, NoMemory>
    ensures { IfOk result (λ v. v.items ≡ with_span span spans.now) }
{
    let mut out = Vec::new(alloc);
    let mut grown = span;
    let mut placed = false;
    for next in spans {
        if placed {
            out.push(*next)?;
        } else if is_before(next.hi, grown.lo) {
            out.push(*next)?;
        } else if is_before(grown.hi, next.lo) {
            out.push(grown)?;
            out.push(*next)?;
            placed = true;
        } else {
            grown = join(*next, grown);
        }
    }
    if !placed {
        out.push(grown)?;
    }
    Ok(out)
}

fn spans_without(alloc: Global, spans: &[Span], gone: Span) -> Result<Vec<Span>, NoMemory>
    ensures { IfOk result (λ v. v.items ≡ without_span gone spans.now) }
{
    let mut out = Vec::new(alloc);
    for next in spans {
        if next.lo < gone.lo {
            out.push(Span {
                lo: next.lo,
                hi: next.hi.min(gone.lo - 1),
            })?;
        }
        if gone.hi < next.hi {
            out.push(Span {
                lo: next.lo.max(gone.hi + 1),
                hi: next.hi,
            })?;
        }
    }
    Ok(out)
}
