//! The places of the holes, or of the slots, from the start of the bytes on.

ghost use Rattle.std.specs.Prelude.{◌≡◌, ◌+◌, ◌≤◌, ◌++◌, [], ◌∷◌, length, take, sum, OnOk, OnErr};
ghost use Rattle.pgv_buf.specs.Layout.{last_from};
ghost use Rattle.pgv_buf.specs.Gaps.{places_after};

use std::alloc::{AllocError, Global};
use std::marker::Model;

/// Places in order. Two may be the same, since a slot may have no width.
///
/// Each is kept as its gap, its distance from the place before, the first from the start. Of the places themselves
/// only the last is kept.
#[derive(Drop)]
pub(crate) struct Places {
    gaps: Vec<usize>,
    pub(crate) last: usize,
}

impl Model for Places {
    ghost use Rattle.std.specs.Prelude.{List, ℕ};
    ghost use Rattle.std.specs.Coded.{coded_list, coded_ℕ};

    ghost Value = { List ℕ };

    ghost coded = { coded_list coded_ℕ };

    ghost use Rattle.pgv_buf.specs.PlacesView.{places_view, IsValid};

    ghost view = { places_view };

    ghost invariant = { IsValid };
}

impl Places {
    /// No places.
    pub(crate) fn new(alloc: Global) -> Places
        ensures { result ≡ [] }
    {
        Places {
            gaps: Vec::new(alloc),
            last: 0,
        }
    }

    /// The gaps, which lead from place to place.
    pub(crate) fn gaps(&self) -> &[usize]
        ensures { places_after 0 result.now ≡ self.now }
    {
        self.gaps.as_slice()
    }

    /// Appends a place that isn't before the last one.
    #[tactic(auto, using(crate::proofs::Gaps::pushed, crate::proofs::Gaps::pushed_last))]
    pub(crate) fn push(&mut self, place: usize) -> Result<(), AllocError>
        requires { last_from 0 self.old ≤ place }
        ensures ok { OnOk result (self.new ≡ self.old ++ place ∷ []) }
        ensures err { OnErr result (self.new ≡ self.old) }
    {
        let gap = place - self.last;
        self.gaps.push(gap)?;
        self.last = place;
        Ok(())
    }

    /// Drops places from the end until `count` are left.
    #[tactic(auto, using(crate::proofs::Gaps::cuts, crate::proofs::Gaps::dropped_fit))]
    pub(crate) fn truncate(&mut self, count: usize)
        requires { count ≤ length self.old }
        ensures { self.new ≡ take count self.old }
    {
        let last = take_off(self.last, &self.gaps[count..]);
        self.gaps.truncate(count);
        self.last = last;
    }

    /// Drops all places.
    pub(crate) fn clear(&mut self)
        ensures { self.new ≡ [] }
    {
        self.gaps.clear();
        self.last = 0;
    }
}

impl Clone for Places {
    ghost is_clone = { λ places copy. copy ≡ places };

    fn clone(&self) -> Result<Places, AllocError> {
        Ok(Places {
            gaps: self.gaps.clone()?,
            last: self.last,
        })
    }
}

/// The place before these gaps, where `last` is the place after them.
#[tactic(auto, using(crate::proofs::Gaps::sum_here))]
fn take_off(last: usize, gaps: &[usize]) -> usize
    requires { sum gaps.now ≤ last }
    ensures { result + sum gaps.now ≡ last }
{
    let mut place = last;
    for gap in gaps {
        place -= *gap;
    }
    place
}
