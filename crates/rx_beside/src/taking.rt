// Which made fibers took over what their alternates have, or are the same texts.
ghost use Rattle.std.specs.Prelude.{◌≡◌, ℕ, true, false, Some, IfSome, is_some};
ghost use Rattle.rx_base.specs.Values.{Text};
ghost use Rattle.rx_elem.specs.Elements.{is_present, text};
ghost use Rattle.rx_elem.specs.Trees as trees;
ghost use Rattle.rx_elem.specs.Trees.{element_of, is_hidden, of_host, shows_fallback};
ghost use Rattle.rx_node.specs.MarkView.{mark_seen};
ghost use Rattle.rx_links.specs.Drafts.{Makes, taken, entry, grafted, old_kids};
ghost use Rattle.rx_links.specs.Readers.{made_kids_of};
ghost use Rattle.rx_fiber.specs.FiberView.{stage_seen};
ghost use Rattle.rx_fiber.specs.Fibers.{begun};
ghost use Rattle.rx_read.specs.Lists.{list_of};
ghost use Rattle.rx_read.specs.Numbering.{made_entry};
ghost use Rattle.rx_read.specs.Places.{first_node};
ghost use Rattle.rx_beside.specs.Alike.{AllTakeAlike};
ghost use Rattle.rx_beside.specs.Pairs.{IsPair};

use crate::places::Pair;
use rx_elem::{Element, ElementKind};
use rx_fiber::{Fiber, Stage};
use rx_links::{FiberId, FiberTree};
use rx_node::Mark;
use rx_read::made_child;

// Whether a made fiber, of which it is known whether it has made children, took over those of its alternate.
pub(crate) fn takes_over(tree: &FiberTree<Fiber>, id: FiberId, has_made: bool) -> bool
    requires made { Makes tree.now.draft id }
    requires has { has_made ≡ is_some (made_entry (made_kids_of tree.now.draft id)) }
    ensures taken { result ≡ true → made_kids_of tree.now.draft id ≡ taken (old_kids tree.now id) }
    ensures some { result ≡ true → is_some (entry (made_kids_of tree.now.draft id)) ≡ true }
    ensures made { result ≡ false → list_of tree.now (made_entry (made_kids_of tree.now.draft id)) ≡ grafted (made_kids_of tree.now.draft id) }
{
    tree.facts();
    !has_made && tree.first_child(id).is_some()
}

// Whether a node with this mark shows its children: it is no boundary that hides them or has caught a value.
pub(crate) fn shows_children(mark: &Mark) -> bool
    ensures hidden { result ≡ true → is_hidden (mark_seen mark.now) ≡ false }
    ensures shown { result ≡ true → shows_fallback (mark_seen mark.now) ≡ false }
{
    !mark.is_hidden() && !mark.is_caught()
}

// The text of an element, if it is one.
fn text_of(element: &Element) -> Option<&[u8]>
    ensures { IfSome result (λ t. element.now ≡ text t.now) }
{
    match element.kind() {
        ElementKind::Text(text) => Some(text.text().as_bytes()),
        _ => None,
    }
}

// Whether two elements are the same text.
fn are_same_texts(old: &Element, new: &Element) -> bool
    ensures { result ≡ true → (t : Text) × (old.now ≡ text t) × (new.now ≡ text t) }
{
    let Some(was) = text_of(old) else {
        return false;
    };
    match text_of(new) {
        Some(is) => was == is,
        None => false,
    }
}

// Whether two fibers are of the same host or text, which has a number.
fn is_same_host(old: &Stage, new: &Stage) -> bool
    ensures { result ≡ true → (n : ℕ) × (stage_seen old.now ≡ begun (of_host (Some n))) × (stage_seen new.now ≡ begun (of_host (Some n))) }
{
    match (old, new) {
        (Stage::Begun(Mark::Host(Some(was))), Stage::Begun(Mark::Host(Some(is)))) => *was == *is,
        _ => false,
    }
}

// Whether a made fiber stands for the very text that its alternate stands for: it was evaluated anew, and came out the same.
fn is_same_text(tree: &FiberTree<Fiber>, pair: &Pair) -> bool
    requires { IsPair tree.now pair.now }
    ensures { result ≡ true → first_node (list_of tree.now (Some pair.now.new)) ≡ first_node (list_of tree.now (Some pair.now.old)) }
{
    tree.facts();
    let was = tree.value(pair.old);
    let is = tree.value(pair.new);
    if !is_same_host(was.stage(), is.stage()) || !are_same_texts(was.element(), is.element()) {
        return false;
    }
    tree.first_child(pair.old).is_none() && tree.first_child(pair.new).is_none()
}

// Whether a made fiber stands for the very node that its alternate stands for: it took its children over, and a commit leaves the
// mark as it is; or it is the same text. Most that are asked for took them over, so that is asked first.
pub(crate) fn is_kept(tree: &FiberTree<Fiber>, pair: &Pair) -> bool
    requires pair { IsPair tree.now pair.now }
    requires alike { AllTakeAlike tree.now.current tree.now.draft }
    ensures same { result ≡ true → first_node (list_of tree.now (Some pair.now.new)) ≡ first_node (list_of tree.now (Some pair.now.old)) }
    ensures present { result ≡ true → (o : trees.Node) → first_node (list_of tree.now (Some pair.now.old)) ≡ Some o → is_present (element_of o) ≡ true }
{
    tree.facts();
    let was = tree.value(pair.old);
    let is = tree.value(pair.new);
    let Stage::Begun(had) = was.stage() else {
        return false;
    };
    let Stage::Begun(mark) = is.stage() else {
        return false;
    };
    if !was.element().is_present() || !had.is_fixed() || !shows_children(mark) {
        return false;
    }
    if takes_over(tree, pair.new, made_child(tree, pair.new).is_some()) {
        return true;
    }
    is_same_text(tree, pair)
}
