// The tree of an expression, drawn. The grammar nests equal operators to the right; a person reads `A OR B OR C` as one OR of three, so
// an operator right below an equal one is not drawn, and its operands are the upper one's.
ghost use Rattle.std.specs.Prelude.{◌≤◌, length};

use crate::write::Out;
use crate::{leaf, phrases, write};
use parser::Node;

// More levels than a tree has: it has at most 127 nodes.
const LEVELS: usize = 128;

#[derive(Clone, Copy, PartialEq)]
enum Joint {
    And,
    Or,
}

fn joint_of(x: Node) -> Option<Joint> {
    match x {
        Node::Blank | Node::Leaf(_) => None,
        Node::And => Some(Joint::And),
        Node::Or => Some(Joint::Or),
    }
}

// Where a part of the tree stands: how deep, whether it is its operator's last operand, and that operator.
#[derive(Clone, Copy)]
struct Place {
    depth: usize,
    is_last: bool,
    above: Option<Joint>,
}

impl Place {
    const ROOT: Place = Place {
        depth: 0,
        is_last: true,
        above: None,
    };

    // The places of both operands of an operator that stands here. An equal one above is not drawn, and they stand as this would.
    fn operands(self, joint: Joint) -> (Place, Place) {
        let above = Some(joint);
        let (depth, is_last) = if self.above == above {
            (self.depth, self.is_last)
        } else {
            (self.depth.saturating_add(1), true)
        };
        let left = Place {
            depth,
            is_last: false,
            above,
        };
        let right = Place {
            depth,
            is_last,
            above,
        };
        (left, right)
    }
}

// Where the last operand begins in postfix: an operator wants one more than it ends.
fn last_begin(nodes: &[Node]) -> usize
    ensures { result ≤ length nodes.now }
{
    let mut wanted: usize = 1;
    for (i, x) in nodes.iter().enumerate().rev() {
        wanted = match joint_of(*x) {
            Some(_) => wanted.saturating_add(1),
            None => wanted.saturating_sub(1),
        };
        if wanted == 0 {
            return i;
        }
    }
    0
}

// What is drawn into, and on which levels another operand follows.
#[derive(Drop)]
struct Drawing<'a> {
    text: &'a [u8],
    open: [bool; LEVELS],
    out: &'a mut Out,
}

impl Drawing<'_> {
    // All that stands before a node in its line. The root's line has the label.
    fn margin(&mut self, place: Place) {
        if place.depth == 0 {
            write::text(self.out, phrases::TREE);
            return;
        }
        write::text(self.out, phrases::MARGIN);
        for open in self.open.iter().take(place.depth).skip(1) {
            write::text(self.out, if *open { phrases::BAR } else { phrases::BLANK });
        }
        if let Some(open) = self.open.get_mut(place.depth) {
            *open = !place.is_last;
        }
        write::text(
            self.out,
            if place.is_last {
                phrases::LAST
            } else {
                phrases::BRANCH
            },
        );
    }

    // A node's line.
    fn line(&mut self, x: Node, place: Place) {
        self.margin(place);
        match x {
            Node::Blank => (),
            Node::Leaf(l) => leaf::drawn(self.text, l, self.out),
            Node::And => write::text(self.out, phrases::AND),
            Node::Or => write::text(self.out, phrases::OR),
        }
        write::line_end(self.out);
    }

    // The part of the tree that nodes in postfix are: the last of them is its operator.
    fn draw(&mut self, nodes: &[Node], place: Place) {
        let Some((root, operands)) = nodes.split_last() else {
            return;
        };
        let joint = joint_of(*root);
        if joint.is_none() | (joint != place.above) {
            self.line(*root, place);
        }
        if let Some(joint) = joint {
            let (left, right) = operands.split_at(last_begin(operands));
            let (left_place, right_place) = place.operands(joint);
            self.draw(left, left_place);
            self.draw(right, right_place);
        }
    }
}

pub(crate) fn tree(s: &[u8], nodes: &[Node], out: &mut Out) {
    let mut drawing = Drawing {
        text: s,
        open: [false; LEVELS],
        out,
    };
    drawing.draw(nodes, Place::ROOT);
}
