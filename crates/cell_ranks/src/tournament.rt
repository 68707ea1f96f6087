// A tournament: behind the first nodes stand the places, and each node before them is won by one of its pair.
ghost use Rattle.std.specs.Prelude.{◌≡◌, ◌+◌, ◌*◌, ◌<◌, ◌≤◌, MatchBool, length};
ghost use Rattle.std.specs.List.{slice_index_or};
ghost use Rattle.cell_ranks.specs.Tournaments.{is_before, winner, node_at, winner_from, IsTournament, IsInserted};

// The score of a cell, 0 where it has none.
fn score(scores: &[usize], cell: u32) -> usize
    ensures { result ≡ slice_index_or scores.now cell 0 }
{
    match scores.get(cell as usize) {
        Some(score) => *score,
        None => 0,
    }
}

// Whether the first is ranked before the second.
fn is_before(scores: &[usize], k: u32, j: u32) -> bool
    ensures { result ≡ is_before scores.now k j }
{
    let first = score(scores, k);
    let second = score(scores, j);
    second < first || (second == first && k <= j)
}

// The one of two that is ranked before the other.
fn winner(scores: &[usize], a: Option<u32>, b: Option<u32>) -> Option<u32>
    ensures { result ≡ winner scores.now a b }
{
    match (a, b) {
        (None, _) => b,
        (Some(_), None) => a,
        (Some(k), Some(j)) => { if is_before(scores, k, j) { a } else { b } }
    }
}

// Whether two are the same.
fn are_same(a: Option<u32>, b: Option<u32>) -> bool
    ensures { MatchBool result (a ≡ b) (a ≡ b → ⊥) }
{
    match (a, b) {
        (None, None) => true,
        (Some(k), Some(j)) => k == j,
        _ => false,
    }
}

// The winner of a node's pair.
fn winner_above(scores: &[usize], nodes: &Vec<Option<u32>>, at: usize) -> Option<u32>
    requires { 2 * at + 1 < length nodes.now.items }
    ensures { result ≡ winner scores.now (node_at nodes.now.items (2 * at))
        (node_at nodes.now.items (2 * at + 1)) }
{
    winner(scores, nodes[2 * at], nodes[2 * at + 1])
}

// Whether this stands at a node.
fn stands(nodes: &Vec<Option<u32>>, at: usize, cell: Option<u32>) -> bool
    requires { at < length nodes.now.items }
    ensures { MatchBool result (node_at nodes.now.items at ≡ cell)
        (node_at nodes.now.items at ≡ cell → ⊥) }
{
    are_same(nodes[at], cell)
}

/// Puts a cell at a place, or leaves the place empty.
pub fn put(
    nodes: &mut Vec<Option<u32>>,
    scores: &[usize],
    places: usize,
    place: usize,
    cell: Option<u32>,
)
    requires length { length nodes.old.items ≡ 2 * places }
    requires place { place < places }
    requires won { IsTournament scores.now nodes.old.items places }
    ensures length { length nodes.new.items ≡ 2 * places }
    ensures won { IsTournament scores.now nodes.new.items places }
    ensures put { IsInserted nodes.old.items nodes.new.items places place cell }
{
    let mut at = places + place;
    nodes[at] = cell;
    while at > 1 {
        at /= 2;
        let won = winner_above(scores, nodes, at);
        if stands(nodes, at, won) {
            return;
        }
        nodes[at] = won;
    }
}

/// The winner of the first so many places.
pub fn first_of(nodes: &[Option<u32>], scores: &[usize], places: usize, end: usize) -> Option<u32>
    requires length { length nodes.now ≡ 2 * places }
    requires end { end ≤ places }
    requires won { IsTournament scores.now nodes.now places }
    ensures { result ≡ winner_from scores.now nodes.now places end }
{
    let mut best = None;
    let mut from = places;
    let mut to = places + end;
    while from < to {
        if from % 2 == 1 {
            best = winner(scores, best, nodes[from]);
            from += 1;
        } else if to % 2 == 1 {
            to -= 1;
            best = winner(scores, best, nodes[to]);
        } else {
            from /= 2;
            to /= 2;
        }
    }
    best
}
