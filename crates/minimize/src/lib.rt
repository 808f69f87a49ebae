// The choice and the listing: which of the licensees of an accept list to ship under; and which were found, so that a caller can say what the bits of a
// mask mean. All take text, mode and list, so no caller can hand in broken nodes.
#![tactic(auto)]

ghost use Rattle.std.specs.Prelude.{◌≡◌, map, ◌≤◌, length, take};
ghost use Rattle.std.specs.List.{list_any};
ghost use Rattle.licensee.specs.Terms.{same_terms, meets};
ghost use Rattle.minimize.specs.Minimize.{problem_of, places_of, choice_of, listing_of, found_answer, found_buffer};
ghost use Rattle.minimize.specs.Posed.{leaf_terms, SmallNodes, found_terms, found_places, mask_of, masked, Poses, PosesList, PosesNodes};

use grammar::Node;
use licensee::{BLANK, Terms};
use masks::Node as Masked;
pub use masks::{Choice, Listing};
use mode::Mode;
use refusal::Refusal;

// What choice and listing are about: how many licensees are found, and how many nodes the text has.
#[derive(Clone, Copy)]
pub struct Posed {
    pub found: u32,
    pub count: usize,
}

// The terms of the leaves among the nodes, in the front of leaves: how many.
fn put_leaves(nodes: &[Node], leaves: &mut [Terms; 127]) -> usize
    requires { length nodes.now ≤ 127 }
    ensures { (take result leaves.new ≡ leaf_terms nodes.now) × (result ≤ 127) × SmallNodes nodes.now }
{
    let mut n = 0;
    for x in nodes {
        if let Node::Leaf(leaf) = *x {
            leaves[n] = licensee::terms_of(leaf.licence, leaf.addition);
            n += 1;
        }
    }
    n
}

// A list file and a text: what the places of licensees and of leaves mean.
#[derive(Clone, Copy)]
struct Sources<'a> {
    file: &'a [u8],
    text: &'a [u8],
}

impl Sources<'_> {
    // Does the licensee l satisfy one of the leaves?
    fn is_wanted(&self, l: Terms, leaves: &[Terms]) -> bool
        ensures { result ≡ list_any (meets self.now.file.now self.now.text.now l) leaves.now }
    {
        leaves
            .iter()
            .any(|x| licensee::satisfies(self.file, l, self.text, *x))
    }

    // Does the licensee l equal one of the found?
    fn is_known(&self, l: Terms, found: &[Terms]) -> bool
        ensures { result ≡ list_any (same_terms self.now.file.now self.now.file.now l) found.now }
    {
        found.iter().any(|x| licensee::equals(self.file, l, *x))
    }

    // The found licensees, and their places in the list: in list order those that satisfy some leaf and equal no earlier found one.
    fn find(
        &self,
        list: &[Terms],
        leaves: &[Terms],
        found: &mut [Terms; 64],
        places: &mut [u8; 64],
    ) -> usize
        requires { length list.now ≤ 64 }
        ensures { (take result found.new ≡ found_terms self.now.file.now self.now.text.now leaves.now list.now)
            × (take result places.new ≡ found_places self.now.file.now self.now.text.now leaves.now list.now) × (result ≤ 64) }
    {
        let mut k = 0;
        for (i, l) in list.iter().enumerate() {
            if self.is_wanted(*l, leaves) && !self.is_known(*l, &found[..k]) {
                found[k] = *l;
                places[k] = i as u8;
                k += 1;
            }
        }
        k
    }

    // The mask of the found licensees that satisfy the leaf x.
    fn mask_of(&self, found: &[Terms], x: Terms) -> u64
        requires { length found.now ≤ 30 }
        ensures { result ≡ mask_of self.now.file.now self.now.text.now found.now x }
    {
        let mut m = 0;
        for (i, l) in found.iter().enumerate() {
            if licensee::satisfies(self.file, *l, self.text, x) {
                m += 1 << i;
            }
        }
        m
    }

    // A node as the evaluator takes it: a leaf by the mask of the found licensees that satisfy it.
    fn masked(&self, found: &[Terms], x: Node) -> Masked
        requires { length found.now ≤ 30 }
        ensures { result ≡ masked self.now.file.now self.now.text.now found.now x }
    {
        match x {
            // no text has one
            Node::Blank => Masked::Leaf(0),
            Node::Leaf(leaf) => {
                let terms = licensee::terms_of(leaf.licence, leaf.addition);
                Masked::Leaf(self.mask_of(found, terms))
            }
            Node::And => Masked::And,
            Node::Or => Masked::Or,
        }
    }

    // The nodes as the evaluator takes them.
    fn put_masks(&self, found: &[Terms], nodes: &[Node], to: &mut [Masked; 127])
        requires { (length found.now ≤ 30) × (length nodes.now ≤ 127) }
        ensures { take (length nodes.now) to.new ≡ map (masked self.now.file.now self.now.text.now found.now) nodes.now }
    {
        for (i, x) in nodes.iter().enumerate() {
            to[i] = self.masked(found, *x);
        }
    }

    // The nodes of a text that reads, and the licensees of a list that is valid. Apart, so that its arrays are not on the stack while the list is read.
    #[inline(never)]
    fn pose_list(
        &self,
        list: &[Terms],
        nodes: &[Node],
        to: &mut [Masked; 127],
        places: &mut [u8; 64],
    ) -> Result<Posed, Refusal>
        requires { (length list.now ≤ 64) × (length nodes.now ≤ 127) }
        ensures { PosesList result self.now.file.now self.now.text.now list.now nodes.now to.new places.new }
    {
        let mut leaves = [BLANK; 127];
        let n = put_leaves(nodes, &mut leaves);
        let mut found = [BLANK; 64];
        let k = self.find(list, &leaves[..n], &mut found, places);
        if 30 < k {
            return Err(Refusal::TooManyRequirements(k));
        }
        self.put_masks(&found[..k], nodes, to);
        Ok(Posed {
            found: k as u32,
            count: nodes.len(),
        })
    }

    // The nodes of a text that reads. Apart, so that the list is not on the stack while the text is read.
    #[inline(never)]
    fn pose_nodes(
        &self,
        nodes: &[Node],
        to: &mut [Masked; 127],
        places: &mut [u8; 64],
    ) -> Result<Posed, Refusal>
        requires { length nodes.now ≤ 127 }
        ensures { PosesNodes result self.now.file.now self.now.text.now nodes.now to.new places.new }
    {
        let a = licensee::read(self.file)?;
        self.pose_list(&a.terms[..a.count], nodes, to, places)
    }
}

// The text, then the list, then how many are found, and where in it they stand.
fn pose(
    s: &[u8],
    m: Mode,
    file: &[u8],
    to: &mut [Masked; 127],
    places: &mut [u8; 64],
) -> Result<Posed, Refusal>
    ensures { Poses result (problem_of s.now m file.now) (places_of s.now m file.now) to.new places.new }
{
    let p = parser::parse(s, m)?;
    Sources { file, text: s }.pose_nodes(&p.nodes[..p.count], to, places)
}

// The least set of found licensees that satisfies the text.
pub fn choice(s: &[u8], m: Mode, file: &[u8], budget: u64) -> Result<Choice, Refusal>
    ensures { result ≡ choice_of s.now m file.now budget }
{
    let mut nodes = [Masked::Leaf(0); 127];
    let mut places = [0u8; 64];
    let p = pose(s, m, file, &mut nodes, &mut places)?;
    masks::choose(&nodes[..p.count], p.found, budget)
}

// The next set from a cursor on that satisfies the text and loses that if any member is taken out.
pub fn listing(s: &[u8], m: Mode, file: &[u8], cursor: u64, budget: u64) -> Result<Listing, Refusal>
    ensures { result ≡ listing_of s.now m file.now cursor budget }
{
    let mut nodes = [Masked::Leaf(0); 127];
    let mut places = [0u8; 64];
    let p = pose(s, m, file, &mut nodes, &mut places)?;
    masks::list(&nodes[..p.count], p.found, cursor, budget)
}

// The places in the list of the found licensees, in the front of out: bit j of a mask is the licensee at out[j].
pub fn found(s: &[u8], m: Mode, file: &[u8], out: &mut [u8; 30]) -> Result<usize, Refusal>
    ensures { (result ≡ found_answer (places_of s.now m file.now))
        × (out.new ≡ found_buffer (places_of s.now m file.now) out.old) }
{
    let mut nodes = [Masked::Leaf(0); 127];
    let mut places = [0u8; 64];
    let p = pose(s, m, file, &mut nodes, &mut places)?;
    let k = p.found as usize;
    text::put(out, 0, &places[..k]);
    Ok(k)
}
