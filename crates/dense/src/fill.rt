// Writing down the answers of a rule: it is asked about each state once whether it is kept, and once for its row.
ghost use Rattle.std.specs.Prelude.{◌≡◌, IfOk, vec_len};
ghost use Rattle.automaton.specs.Meanings.{meaning};
ghost use Rattle.dense.specs.Listed.{KeptListed, RowsListed};

use automaton::rule::Rule;
use std::alloc::{AllocError, Global};

// Which states are kept.
pub(crate) fn kept_of<R: Rule>(heap: Global, rule: &R) -> Result<Vec<bool>, AllocError>
    ensures long { IfOk result (λ kept. vec_len kept ≡ R.Rule.count rule.now) }
    ensures listed { IfOk result (λ kept. KeptListed (meaning R.Rule rule.now) kept.items) }
{
    let states = rule.size().states;
    let mut kept = Vec::with_capacity(heap, states)?;
    for state in 0..states {
        kept.push(rule.is_kept(state))?;
    }
    Ok(kept)
}

// The next states, row by row.
pub(crate) fn rows_of<R: Rule>(heap: Global, rule: &R) -> Result<Vec<[u16; 16]>, AllocError>
    ensures long { IfOk result (λ rows. vec_len rows ≡ R.Rule.count rule.now) }
    ensures listed { IfOk result (λ rows. RowsListed (meaning R.Rule rule.now) rows.items) }
{
    let states = rule.size().states;
    let mut rows = Vec::with_capacity(heap, states)?;
    for state in 0..states {
        let mut spare = [0u16; 16];
        rows.push(*rule.row(state, 0, &mut spare))?;
    }
    Ok(rows)
}
