// Sets of found licensees as masks: which satisfy, which are chosen, which are listed.
#![tactic(auto)]

ghost use Rattle.std.specs.Prelude.{◌≡◌, false, ◌+◌, ◌^◌, ◌<◌, ◌≤◌};
ghost use Rattle.text.specs.First.{first};
ghost use Rattle.masks.specs.Masks.{spare, minimal, searched, settled, listed, chosen};
ghost use Rattle.masks.specs.Value.{step, value};
ghost use Rattle.masks.specs.declared.Node.TheVariants.{And, Or};

use refusal::Refusal;

// Room for the stack of answers: one bit less than a number has.
const ROOM: u64 = 0x8000_0000_0000_0000;

// A node of an expression: a leaf has the mask of the licensees that satisfy it.
#[derive(Clone, Copy)]
pub enum Node {
    Leaf(u64),
    And,
    Or,
}

// What a choice answers.
#[derive(Clone, Copy)]
pub enum Choice {
    Mask(u64),
    // where it would go on
    Paused(u64),
}

// What a call of the listing answers, each with the next cursor.
#[derive(Clone, Copy)]
pub enum Listing {
    Found { mask: u64, next: u64 },
    Paused(u64),
    Finished(u64),
}

// AND of the two answers on top: their product, on what is below.
fn both(st: u64) -> u64
    ensures { result ≡ step And 0 st }
{
    st / 4 * 2 + st / 2 % 2 * (st % 2)
}

// OR of the two answers on top: where the first fails, the second decides.
fn either(st: u64) -> u64
    ensures { result ≡ step Or 0 st }
{
    if st % 2 == 1 { st / 4 * 2 + 1 } else { st / 2 }
}

// One node more: the stack of answers is the bits of st, the lowest on top.
// The leaf's arm stands last, so that it falls through to the end of the loop around it: most nodes are leaves.
#[tactic(auto, unfolding(crate::specs::Value::step))]
fn next(node: Node, mask: u64, st: u64) -> u64
    ensures { result ≡ step node mask st }
{
    match node {
        Node::And => both(st),
        Node::Or => either(st),
        Node::Leaf(met) => st % ROOM * 2 + u64::from(met & mask != 0),
    }
}

// Does the set satisfy?
fn evaluate(nodes: &[Node], mask: u64) -> bool
    ensures { result ≡ value nodes.now mask }
{
    let mut st = 0;
    for x in nodes {
        st = next(*x, mask, st);
    }
    st % 2 == 1
}

// Licensee i is in the set and not needed there.
fn is_spare(nodes: &[Node], mask: u64, i: u32) -> bool
    requires { i < 64 }
    ensures { result ≡ spare (value nodes.now) mask i }
{
    (mask >> i) % 2 == 1 && evaluate(nodes, mask - (1 << i))
}

// Does the set satisfy, with every member needed?
fn is_minimal(nodes: &[Node], k: u32, mask: u64) -> bool
    requires { k ≤ 64 }
    ensures { result ≡ minimal (value nodes.now) k mask }
{
    evaluate(nodes, mask) && !(0..k).any(|i| is_spare(nodes, mask, i))
}

// Examines at most n masks from the cursor on, of those below the end.
fn search(nodes: &[Node], k: u32, end: u64, cursor: u64, n: u64) -> Listing
    requires { (k ≤ 64) × (cursor + n ≤ end) }
    ensures { result ≡ searched (minimal (value nodes.now) k) end cursor n }
{
    let stop = cursor + n;
    match (cursor..stop).find(|m| is_minimal(nodes, k, *m)) {
        Some(mask) => Listing::Found {
            mask,
            next: mask + 1,
        },
        None if stop < end => Listing::Paused(stop),
        None => Listing::Finished(stop),
    }
}

// The next set from the cursor on that satisfies with every member needed, of k licensees.
pub fn list(nodes: &[Node], k: u32, cursor: u64, budget: u64) -> Result<Listing, Refusal>
    requires { k < 64 }
    ensures { result ≡ listed (value nodes.now) k cursor budget }
{
    let end = 1 << k;
    if !(1..=end).contains(&cursor) {
        return Err(Refusal::BadCursor(cursor));
    }
    if budget == 0 {
        return Err(Refusal::NoBudget);
    }
    Ok(search(nodes, k, end, cursor, budget.min(end - cursor)))
}

// The least set that satisfies, among n masks from 1 on.
fn settle(nodes: &[Node], n: u64) -> Choice
    requires { 1 + n < 2 ^ 64 }
    ensures { result ≡ settled n (first (value nodes.now) n 1) }
{
    let stop = 1 + n;
    match (1..stop).find(|m| evaluate(nodes, *m)) {
        Some(mask) => Choice::Mask(mask),
        None => Choice::Paused(stop),
    }
}

// The least set that satisfies, of k licensees.
pub fn choose(nodes: &[Node], k: u32, budget: u64) -> Result<Choice, Refusal>
    requires { (k < 64) × (value nodes.now 0 ≡ false) }
    ensures { result ≡ chosen (value nodes.now) k budget }
{
    let all = (1 << k) - 1;
    if !evaluate(nodes, all) {
        return Err(Refusal::RequirementsUnmet);
    }
    if budget == 0 {
        return Err(Refusal::NoBudget);
    }
    Ok(settle(nodes, budget.min(all)))
}
