// The images that a map has so far: whether a slot is one of them, whether it is that of a source vertex, and how a map gains one
// more. What a step of matching promises of the map stands here, too.
#![tactic(auto)]

ghost use Rattle.std.specs.Prelude.{◌≡◌, suc, ◌<◌, ◌≤◌, eqb, length, get_or};
ghost use Rattle.definitions.specs.Lists.{any_below};
ghost use Rattle.definitions.specs.Graph.{graph_of};
ghost use Rattle.definitions.specs.Rule.{side_capacity};
ghost use Rattle.definitions.specs.Match.{image_of};
ghost use Rattle.rule_fields.specs.Fixed.{fixed_of};
ghost use Rattle.match_images.specs.Partial.{Sends, Step};
ghost use Rattle.match_images.specs.Ready.{SettleReady};

use attributes::attributes_agree;
use definitions::SIDE_CAPACITY;

// Whether v is the image of one of the first `next` source vertices.
fn is_taken(images: &[u16; SIDE_CAPACITY], next: usize, v: usize) -> bool
    requires next_le_side_capacity { next ≤ side_capacity }
    requires images_len { length images.now ≡ side_capacity }
    ensures { result ≡ any_below (λ i. eqb (image_of images.now i) v) next }
{
    (0..next).any(|i| usize::from(images[i]) == v)
}

// Gives source vertex j, a candidate whose inputs have their images, the image v: where v is no lower vertex's image, and the
// attributes agree. It is kept out of its caller, which calls itself, so that the room in which attributes are worked out is on the
// stack once and not at every level.
#[inline(never)]
pub fn settle(
    graph: &[u8],
    rule: &[u8],
    j: usize,
    v: usize,
    images: &mut [u16; SIDE_CAPACITY],
) -> bool
    requires { SettleReady graph.now rule.now j v images.old }
    ensures { Step (graph_of graph.now) (fixed_of rule.now) j images.old (Sends j v) (suc j) result
        images.new }
{
    if is_taken(images, j, v) {
        return false;
    }
    if !attributes_agree(graph, rule, images, j, v) {
        return false;
    }
    images[j] = v as u16;
    true
}

// Whether v is the image that source vertex j has. The slots are compared, and not what they hold: two Variables alike are still two
// vertices.
pub fn is_image(images: &[u16; SIDE_CAPACITY], j: usize, v: usize) -> bool
    requires j_lt_side_capacity { j < side_capacity }
    requires images_len { length images.now ≡ side_capacity }
    ensures { result ≡ eqb (get_or images.now j 0) v }
{
    usize::from(images[j]) == v
}
