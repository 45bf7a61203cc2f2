// A node of a finished tree.
ghost use Rattle.std.specs.Prelude.{◌≡◌, ◌<◌, true, IfOk};
ghost use Rattle.rx_elem.specs.Trees.{node, element_of, mark_of, children_of, fallback_of, places, forest, height, height_in};
ghost use Rattle.rx_node.specs.Fixed.{is_fixed, are_fixed};
ghost use Rattle.rx_node.specs.Hides.{hides_in, hides_within};
ghost use Rattle.rx_node.specs.MarkView.{mark_seen};
ghost use Rattle.rx_node.specs.Mounts.{mounts_in, mounts_within};
ghost use Rattle.rx_node.specs.Texts.{are_texts, is_bare, is_text, is_text_element};

use crate::mark::Mark;
use rx_elem::{Element, ElementKind};
use std::alloc::{AllocError, Global};
use std::marker::Model;
use std::rc::Rc;

/// A node of a finished tree, with all below it. Whoever holds it has a handle: what is in it stands once. Contracts see it
/// as plain data.
#[cycle(node)]
pub struct Node {
    parts: Rc<Parts>,
}

/// What is in a node: a boundary's children are its primary content.
#[derive(Drop)]
#[cycle(node)]
struct Parts {
    element: Element,
    children: Vec<Option<Node>>,
    fallback: Vec<Option<Node>>,
    // Whether a boundary at it or below is hidden.
    hides: bool,
    // Whether a component's instance is at it or below.
    mounts: bool,
    // Whether a commit leaves it as it is.
    fixed: bool,
    // Whether it is that of a text, with nothing below it.
    text: bool,
    // Whether each place of its children has such a node.
    texts: bool,
    // The largest comes last: a walk over hosts reads its front alone.
    mark: Mark,
}

impl Model for Node {
    ghost use Rattle.rx_elem.specs.Trees as trees;
    ghost use Rattle.rx_node.specs.NodeCode.{node_code};

    ghost Value = { trees.Node };

    ghost coded = { node_code };

    ghost use Rattle.rx_node.specs.NodeView.{node_seen};

    ghost view = { λ n. node_seen n.parts.value };

    ghost use Rattle.rx_node.specs.Summary.{KnowsAll};

    ghost invariant = { λ n. KnowsAll n.parts.value };

    ghost size = { trees.height };

    ghost use Rattle.rx_node.specs.NodeFalls.{height_falls};

    ghost size_decreases = { λ a h. height_falls a.parts.value };
}

impl Drop for Node {
    #[cycle(node)]
    fn drop(self) {
        let Node { parts } = self;
        drop(parts);
    }
}

// What a node has to know of one of its lists: whether a boundary in it or below is hidden, whether there is a component's instance,
// whether a commit leaves all of it as it is, and whether each place has the node of a text.
#[derive(Clone, Copy)]
struct Gathered {
    hides: bool,
    mounts: bool,
    fixed: bool,
    texts: bool,
}

fn gather(nodes: &[Option<Node>]) -> Gathered
    ensures hides { result.hides ≡ hides_in (forest nodes.now) }
    ensures mounts { result.mounts ≡ mounts_in (forest nodes.now) }
    ensures fixed { result.fixed ≡ are_fixed true (forest nodes.now) }
    ensures texts { result.texts ≡ are_texts (forest nodes.now) }
{
    let mut all = Gathered {
        hides: false,
        mounts: false,
        fixed: true,
        texts: true,
    };
    let mut filled = true;
    for place in nodes {
        filled = place.is_some();
        all.texts = all.texts && filled;
        if let Some(node) = place {
            all.hides = all.hides || node.hides();
            all.mounts = all.mounts || node.mounts();
            all.fixed = all.fixed && node.is_fixed();
            all.texts = all.texts && node.is_text();
        }
    }
    all.fixed = all.fixed && filled;
    all
}

fn is_text_element(element: &Element) -> bool
    ensures { result ≡ is_text_element element.now }
{
    matches!(element.kind(), ElementKind::Text(_))
}

fn is_bare(nodes: &[Option<Node>]) -> bool
    ensures { result ≡ is_bare (forest nodes.now) }
{
    nodes.is_empty()
}

// Whether a node with these parts is that of a text.
fn is_text(
    element: &Element,
    mark: &Mark,
    children: &[Option<Node>],
    fallback: &[Option<Node>],
) -> bool
    ensures { result ≡ is_text (node element.now (mark_seen mark.now) (forest children.now) (forest fallback.now)) }
{
    is_text_element(element) && mark.is_host() && is_bare(children) && is_bare(fallback)
}

impl Node {
    /// The node with these parts.
    ///
    /// # Errors
    ///
    /// Only if out of memory.
    pub fn new(
        alloc: Global,
        element: Element,
        mark: Mark,
        children: Vec<Option<Node>>,
        fallback: Vec<Option<Node>>,
    ) -> Result<Node, AllocError>
        ensures { IfOk result (λ n. n ≡ node element (mark_seen mark) (forest children.items) (forest fallback.items)) }
    {
        let primary = gather(&children);
        let other = gather(&fallback);
        let hides = mark.is_hidden() || primary.hides || other.hides;
        let mounts = mark.is_instance() || primary.mounts || other.mounts;
        let fixed = mark.is_fixed() && primary.fixed && other.fixed;
        let text = is_text(&element, &mark, &children, &fallback);
        let parts = Parts {
            element,
            mark,
            children,
            fallback,
            hides,
            mounts,
            fixed,
            text,
            texts: primary.texts,
        };
        let parts = Rc::new(alloc, parts)?;
        Ok(Node { parts })
    }

    /// The element that it was rendered from.
    pub fn element(&self) -> &Element
        ensures { result.now ≡ element_of self.now }
    {
        &self.parts.element
    }

    /// What it has beside its element and its children.
    pub fn mark(&self) -> &Mark
        ensures { mark_seen result.now ≡ mark_of self.now }
    {
        &self.parts.mark
    }

    /// Its children, a place each; of a boundary, its primary content.
    pub fn children(&self) -> &[Option<Node>]
        ensures are { result.now ≡ places (children_of self.now) }
        ensures all { forest result.now ≡ children_of self.now }
        ensures lower { height_in (forest result.now) < height self.now }
    {
        &self.parts.children
    }

    /// The fallback of a boundary, a place each; of any other node, nothing.
    pub fn fallback(&self) -> &[Option<Node>]
        ensures are { result.now ≡ places (fallback_of self.now) }
        ensures all { forest result.now ≡ fallback_of self.now }
        ensures lower { height_in (forest result.now) < height self.now }
    {
        &self.parts.fallback
    }

    /// Whether a boundary at it or below is hidden, of what is kept and of fallbacks too. No walk is taken for it.
    pub fn hides(&self) -> bool
        ensures { result ≡ hides_within self.now }
    {
        self.parts.hides
    }

    /// Whether a component's instance is at it or below, of what is kept and of fallbacks too. No walk is taken for it.
    pub fn mounts(&self) -> bool
        ensures { result ≡ mounts_within self.now }
    {
        self.parts.mounts
    }

    /// Whether a commit leaves it as it is: nothing in it is new, and no list of it ends with a vacant place. No walk is taken for it.
    pub fn is_fixed(&self) -> bool
        ensures { result ≡ is_fixed self.now }
    {
        self.parts.fixed
    }

    /// Whether it is that of a text, with nothing below it. Its element isn't read for it.
    pub fn is_text(&self) -> bool
        ensures { result ≡ is_text self.now }
    {
        self.parts.text
    }

    /// Whether each place of its children has the node of a text, with nothing below it. No walk is taken for it.
    pub fn has_texts(&self) -> bool
        ensures { result ≡ are_texts (children_of self.now) }
    {
        self.parts.texts
    }

    /// The same node, by one handle more.
    ///
    /// # Errors
    ///
    /// Only if out of memory.
    pub fn copy(&self) -> Result<Node, AllocError>
        ensures { IfOk result (λ n. n ≡ self.now) }
    {
        let parts = self.parts.clone()?;
        Ok(Node { parts })
    }
}
