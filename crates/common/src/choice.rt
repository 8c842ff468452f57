// The one rule by which the best is chosen: the lowest index among the best.
ghost use Rattle.std.specs.Prelude.{◌≡◌, Bool, ℕ, slice_index_or, length, MatchOption, None};
ghost use Rattle.std.specs.Cmp.{IsStrictWeakOrder};
ghost use Rattle.std.specs.List.{IsFirstBest};
ghost use Rattle.common.specs.Ranks.{FirstPresent, or_absent};
ghost use Rattle.common.specs.RankLaws.{present-ordered};

// A rank: its comparison is a total order up to equal rank. Of two ranks at most one is better, and where neither x is better
// than y nor y than z, x is not better than z. It is not std's `Ord`, since fractions of equal rank need not be equal.
pub trait Rank {
    ghost beats: { Self → Self → Bool };

    fn better(&self, other: &Self) -> bool
        ensures { result ≡ beats self.now other.now };

    ghost ordered: { IsStrictWeakOrder beats };
}

// Where some ranks are absent, any rank is better than none.
impl<R: Rank> Rank for Option<R> {
    ghost beats = { or_absent R.beats };

    ghost ordered = { present-ordered R.ordered };

    fn better(&self, other: &Option<R>) -> bool {
        match (self, other) {
            (Some(a), Some(b)) => a.better(b),
            (Some(_), None) => true,
            _ => false,
        }
    }
}

// The lowest index among the best ranks; none of an empty slice.
pub fn first_best<R: Rank>(ranks: &[R]) -> Option<usize>
    ensures { MatchOption result (length ranks.now ≡ 0) (IsFirstBest R.beats ranks.now (length ranks.now)) }
{
    if ranks.is_empty() {
        return None;
    }
    // The index is the answer; by `reduce` over the indices the proof does not close.
    let mut best = 0;
    for i in 1..ranks.len() {
        if ranks[i].better(&ranks[best]) {
            best = i;
        }
    }
    Some(best)
}

// The lowest index among the best of the ranks that are there; none where all are absent.
pub fn first_present<R: Rank>(ranks: &[Option<R>]) -> Option<usize>
    ensures { MatchOption result ((k : ℕ) → slice_index_or ranks.now k None ≡ None) (FirstPresent R.beats ranks.now) }
{
    let best = first_best(ranks)?;
    // By `?` or `then_some` in place of this pattern the proof does not close.
    let Some(_) = &ranks[best] else {
        return None;
    };
    Some(best)
}
